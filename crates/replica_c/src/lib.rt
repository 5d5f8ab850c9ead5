//! A replica for programs in C: the proved replica behind a handle.
//! `include/jcrdt.h` says what a caller owes.
#![tactic(auto)]

ghost use Rattle.std.specs.Prelude.{◌≡◌, ◌⊎◌, ◌++◌, None, Some, Bool, IfOk, IfErr, length, take};
ghost use Rattle.std.specs.Prelude.{drop, ℕ, List};
ghost use Rattle.json_scalar.specs.Refusal.{UnlessMemory};
ghost use Rattle.replica_c.specs.Asking.{ask_of};
ghost use Rattle.replica_c.specs.Calls.{CallsAsk, GivesAgain, put_into, told_into, told_length};
ghost use Rattle.replica_c.specs.Opening.{CallsOpen, OpensNone};
ghost use Rattle.replica_c.specs.Serving.{TellsLine};
ghost use Rattle.replica_c.specs.Stored.{IsUnopened, OpensAs};

mod ask;
mod fault;
mod handle;
mod loose;
mod made;
mod open;
mod place;
mod read;
mod run;

use ask::Ask;
pub use fault::Fault;
use fault::fault_of;
pub use handle::Handle;
use json_scalar::Refusal;
use loose::LooseBox;
use open::{OpenReplica, Unopened};
use read::read_ask;
use replica_core::Misfit;
use std::alloc::Global;
use std::mem;

/// Opens a replica of this name in a handle that owns none. Its log is what the lines of
/// `operations` write, one operation each; no byte for a new replica. 0, with `fault` as it was; or
/// the number of the refusal, with the handle as it was: the first line that doesn't fit those before it (`fault`
/// says which); 2, `bad-request`, for what is no name, or where the handle owns a replica already,
/// and then `fault` is as it was; 22, `no-memory`.
#[unsafe(no_mangle)]
pub extern "C" fn jcrdt_open(
    alloc: Global,
    replica: &mut Handle,
    name: &[u8],
    operations: &[u8],
    fault: &mut Fault,
) -> u64
    ensures opens { CallsOpen replica.old.value name.now operations.now result fault.old fault.new replica.new.value }
{
    match mem::replace(replica, Handle::closed()).into_parts(alloc) {
        Some(parts) => {
            *replica = Handle::of(parts);
            Refusal::BadRequest.number()
        }
        None => open_closed(alloc, replica, name, operations, fault),
    }
}

/// Answers one line, and gives the length of the text of the answer: the reply's line as a
/// server writes it, and after a change of one's own that was applied also the new
/// operation's line. As much of the text as has room is put into `out`. 0 where the handle
/// owns no replica, or where memory lacked for the text: the line was answered then all the
/// same, and is not to be asked again.
#[unsafe(no_mangle)]
pub extern "C" fn jcrdt_ask(
    alloc: Global,
    replica: &mut Handle,
    line: &[u8],
    out: &mut [u8],
) -> usize
    ensures answers { CallsAsk replica.old.value line.now out.old result replica.new.value out.new }
{
    // The line is read while the handle has its replica: that needs most of the stack, and where there
    // is none left the replica is whole.
    let asked = read_ask(alloc, line);
    match mem::replace(replica, Handle::closed()).into_parts(alloc) {
        Some(parts) => {
            let mut kept = parts.into_box();
            let count = answered(&mut kept, asked, out);
            *replica = Handle::of(LooseBox::of(kept));
            count
        }
        None => 0,
    }
}

/// Gives the text of the last answer again, as `jcrdt_ask` does: for a
/// caller whose room was too small.
#[unsafe(no_mangle)]
pub extern "C" fn jcrdt_again(alloc: Global, replica: &mut Handle, out: &mut [u8]) -> usize
    ensures given { GivesAgain replica.old.value out.old result out.new }
    ensures replica { replica.new.value ≡ replica.old.value }
{
    match mem::replace(replica, Handle::closed()).into_parts(alloc) {
        Some(parts) => {
            let kept = parts.into_box();
            let count = give(kept.text.as_slice(), out);
            *replica = Handle::of(LooseBox::of(kept));
            count
        }
        None => 0,
    }
}

/// Frees the replica that a handle owns, if it owns one.
#[unsafe(no_mangle)]
pub extern "C" fn jcrdt_close(alloc: Global, replica: &mut Handle)
    ensures closed { replica.new.value ≡ None }
{
    match mem::replace(replica, Handle::closed()).into_parts(alloc) {
        Some(parts) => drop(parts.into_box()),
        None => {}
    }
}

fn open_closed(
    alloc: Global,
    replica: &mut Handle,
    name: &[u8],
    operations: &[u8],
    fault: &mut Fault,
) -> u64
    requires { replica.old.value ≡ None }
    ensures { OpensNone name.now operations.now result fault.old fault.new replica.new.value }
{
    match opened(alloc, name, operations) {
        Ok(kept) => {
            *replica = Handle::of(LooseBox::of(kept));
            0
        }
        Err(why) => {
            *fault = fault_of(&why);
            fault.number
        }
    }
}

fn opened(alloc: Global, name: &[u8], operations: &[u8]) -> Result<Box<OpenReplica>, Unopened>
    ensures ok { IfOk result (λ b. OpensAs name.now operations.now b.value.replica) }
    ensures err { IfErr result (IsUnopened name.now operations.now) }
{
    match OpenReplica::open(alloc, name, operations) {
        Ok(kept) => match Box::new(alloc, kept) {
            Ok(kept) => Ok(kept),
            Err(_) => Err(Unopened::Unfit(Misfit::NoMemory)),
        },
        Err(why) => Err(why),
    }
}

fn answered(kept: &mut OpenReplica, asked: Result<Ask, Refusal>, out: &mut [u8]) -> usize
    ensures { (told : Bool)
        × ((line : List ℕ) → UnlessMemory asked (ask_of line)
        → TellsLine kept.old.replica line told kept.new.replica kept.new.text.items)
        × (result ≡ told_length told kept.new.text.items)
        × (out.new ≡ told_into told kept.new.text.items out.old) }
{
    if kept.answer(asked) {
        give(kept.text.as_slice(), out)
    } else {
        0
    }
}

// Puts as many of the bytes as have room into `out`, and returns how many there are.
fn give(bytes: &[u8], out: &mut [u8]) -> usize
    ensures count { result ≡ length bytes.now }
    ensures given { out.new ≡ put_into bytes.now out.old }
{
    let count = bytes.len().min(out.len());
    out[..count].copy_from_slice(&bytes[..count]);
    bytes.len()
}
