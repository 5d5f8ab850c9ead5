//! A client that waits for its replies.
ghost use Rattle.std.specs.Prelude.{◌≡◌};
ghost use Rattle.share_ledger.specs.Begun.{BeginEmpty};

use crate::checks::holds;
use line_feed::{Outbox, Reader, Writer};
use run_core::{NewDocuments, run_over};
use share_ledger::{Blank, Marker};
use std::alloc::Global;
use std::io;
use std::io::{Read, Write};
use std::marker::Brand;
use std::sync::atomic::{AtomicU64, Ordering};

// Counts the replies that come, and how often some come.
#[derive(Drop)]
struct Replies<'a> {
    lines: &'a AtomicU64,
    writes: &'a AtomicU64,
}

impl Write for Replies<'_> {
    fn write(&mut self, buf: &[u8]) -> io::Result<usize> {
        self.writes.fetch_add(1, Ordering::SeqCst);
        for byte in buf {
            if *byte == b'\n' {
                self.lines.fetch_add(1, Ordering::SeqCst);
            }
        }
        Ok(buf.len())
    }

    fn flush(&mut self) -> io::Result<()> {
        Ok(())
    }
}

// Sends four lines and a part of the next at a time, and looks before each time whether all whole
// lines have their replies.
#[derive(Drop)]
struct Client<'a> {
    left: u8,
    sent: u64,
    replies: &'a AtomicU64,
    waits_in_vain: &'a AtomicU64,
}

// Four lines and a part of one, which the first bytes of the next part end.
const PART: &[u8] = b"n\",\"d\"]\n[\"front\",\"d\"]\n[\"front\",\"d\"]\n[\"front\",\"d\"]\n[\"ope";

impl Read for Client<'_> {
    fn read(&mut self, buf: &mut [u8]) -> io::Result<usize> {
        if self.replies.load(Ordering::SeqCst) < self.sent {
            self.waits_in_vain.store(1, Ordering::SeqCst);
        }
        if self.left == 0 || buf.len() < PART.len() {
            return Ok(0);
        }
        self.left -= 1;
        self.sent = self.sent.saturating_add(4);
        buf[..PART.len()].copy_from_slice(PART);
        Ok(PART.len())
    }
}

// The status of a run over the client's lines, which says whether it waited in vain, and the
// replies and writes.
fn waits<M: Marker>(
    alloc: Global,
    blank: Blank,
    in_vain: &AtomicU64,
    lines: &AtomicU64,
    writes: &AtomicU64,
) -> u8
    requires blank { blank ≡ M.name }
    requires begun { BeginEmpty M.origin }
{
    let client = Client {
        left: 5,
        sent: 0,
        replies: lines,
        waits_in_vain: in_vain,
    };
    let mut sink = Outbox::new(alloc, Writer::new(Replies { lines, writes }));
    let mut made = NewDocuments::<M>::new(blank);
    run_over(
        alloc,
        &mut made,
        "srv",
        &["d"],
        &mut Reader::new(client),
        &mut sink,
    )
}

#[test]
fn has_its_replies_before_it_is_read_again(rt: HostRuntime) {
    let (in_vain, lines, writes) = (AtomicU64::new(0), AtomicU64::new(0), AtomicU64::new(0));
    let status = waits::<Brand>(rt.alloc(), Blank::new(), &in_vain, &lines, &writes);
    let counted = (
        in_vain.load(Ordering::SeqCst),
        lines.load(Ordering::SeqCst),
        writes.load(Ordering::SeqCst),
    );
    // 20 whole lines and a last piece, in one write for each part and one for the last piece
    let is = (status, counted) == (0, (0, 21, 6));
    holds(&rt, is, "has_its_replies_before_it_is_read_again");
}
