//! One of the documents that a copier goes over.
ghost use Rattle.std.specs.Prelude.{◌≡◌, ◌<◌, [], length, get_or};

use server_core::SharedDocuments;
use share_ledger::Marker;

/// One of the documents that sessions share: the document of this number, under the name that this
/// place has.
#[derive(Drop)]
pub struct DocumentToCopy<'a, M: Marker> {
    /// All of them.
    pub shared: &'a SharedDocuments<M>,
    /// Its place among them, which is its number.
    pub doc_index: usize,
    /// Its name.
    pub name: &'a str,
    ghost within: { doc_index < length shared.now.names.items },
    ghost named: { name.now ≡ get_or shared.now.names.items doc_index [] },
}

impl<'a, M: Marker> DocumentToCopy<'a, M> {
    /// The one at this place.
    pub fn at(shared: &'a SharedDocuments<M>, doc_index: usize) -> DocumentToCopy<'a, M>
        requires { doc_index < length shared.now.names.items }
        ensures index { result.doc_index ≡ doc_index }
        ensures shared { result.shared.now ≡ shared.entry.now }
    {
        let name = shared.names[doc_index].as_str();
        DocumentToCopy {
            shared,
            doc_index,
            name,
        }
    }
}
