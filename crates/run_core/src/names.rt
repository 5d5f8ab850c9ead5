//! The names of a server and of its documents.
ghost use Rattle.std.specs.Prelude.{◌≡◌, ◌≤◌, true, length, map, Some, IfOk};
ghost use Rattle.std.specs.List.{list_all, list_any};
ghost use Rattle.std.specs.Str.{bytes_eq};
ghost use Rattle.lamport_id.specs.Name.{is_name};
ghost use Rattle.run_core.specs.Limits.{longest_server_name};
ghost use Rattle.run_core.specs.Names.{all_differ, first_replica, is_good};

use lamport_id::ReplicaName;
use std::alloc::{AllocError, Global};

/// The most documents of a server.
pub const MAX_DOCUMENTS: usize = 16;

/// The most bytes of a server's name, which leave room for the number of a start in that of a
/// replica.
pub const MAX_NAME_BYTES: usize = 24;

/// Whether the text is a name: 1 to 32 bytes of a-z, 0-9 and -.
pub fn is_name(text: &str) -> bool
    ensures { result ≡ is_name text.now }
{
    ReplicaName::read(text.as_bytes()).is_some()
}

/// Whether the text is one of the texts.
pub fn is_among(text: &[u8], texts: &[&str]) -> bool
    ensures { result ≡ list_any (λ s. bytes_eq text.now s.now) texts.now }
{
    texts.iter().any(|other| text == other.as_bytes())
}

// Whether no text is there twice.
fn all_differ(texts: &[&str]) -> bool
    ensures { result ≡ all_differ (map (λ s. s.now) texts.now) }
{
    for i in 0..texts.len() {
        if is_among(texts[i].as_bytes(), &texts[i + 1..]) {
            return false;
        }
    }
    true
}

// Whether each text is a name.
fn are_names(texts: &[&str]) -> bool
    ensures { result ≡ list_all is_name (map (λ s. s.now) texts.now) }
{
    for text in texts {
        if !is_name(text) {
            return false;
        }
    }
    true
}

/// Whether a server of this name, of at most 24 bytes, may serve these documents: at most 16, of
/// names that differ.
pub fn is_good(name: &str, documents: &[&str]) -> bool
    ensures { result ≡ is_good name.now (map (λ s. s.now) documents.now) }
{
    let named = is_name(name) && name.len() <= MAX_NAME_BYTES;
    let served = documents.len() <= MAX_DOCUMENTS && are_names(documents) && all_differ(documents);
    named && served
}

/// The name of the replica that a server of this name is at its first start.
pub fn first_replica(alloc: Global, name: &str) -> Result<Option<ReplicaName>, AllocError>
    requires { (is_name name.now ≡ true) × (length name.now ≤ longest_server_name) }
    ensures { IfOk result (λ replica. replica ≡ Some (first_replica name.now)) }
{
    let mut bytes = Vec::new(alloc);
    bytes.extend_from_slice(name.as_bytes())?;
    bytes.extend_from_slice(b"-1")?;
    Ok(ReplicaName::read(bytes.as_slice()))
}
