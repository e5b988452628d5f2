//! A table of 1,024 frames: each kind of line, an `rmap` and an audit of as many places, and more than 10,000 lines.
use crate::host::{Host, ended};
use crate::lines::Lines;
use ksm_base::{MOST_LIVES, MOST_TRIES};
use ksm_host::Status;
use std::test::Fail;

/// How many frames, places and pages there are.
const FRAMES: u32 = 1024;

impl Lines {
    /// One content on all frames, which two passes merge into one dup: it stands on the frame of the first page.
    fn merge_all(&mut self) -> Result<(), Fail> {
        self.add("set max_page_sharing 1024", "ok")?;
        for page in 0..FRAMES {
            let node = page / 256;
            self.add(
                format!(in self.alloc; "reg 0 {page} {node} aa")?.as_str(),
                "ok",
            )?;
        }
        self.add_all(&[
            "reg 0 1024 3 aa|refused 4",
            "set run 1|ok",
            "scan 2048|scanned 2048",
            "stat|stat shared=1 sharing=1023 unshared=0 volatile=0 chains=0 dups=0 full_scans=2",
            "ticket 0 1023|place 0",
            "show max_page_sharing|1024",
            "show ksm_zero_pages|0",
            "set merge_across_nodes 0|refused 6",
        ])?;
        let mut pages = String::from_str(self.alloc, "rmap")?;
        for page in 0..FRAMES {
            pages.push_str(format!(in self.alloc; " 0:{page}")?.as_str())?;
        }
        self.add("rmap 0", pages.as_str()).map_err(Fail::from)
    }

    /// Each pass holds the frame, and gives it back. Then all look up each place: one has the dup, the others are
    /// empty.
    fn look_up(&mut self) -> Result<(), Fail> {
        let digits = "aa".repeat(self.alloc, 64)?;
        for pass in 0..16u32 {
            self.add(
                format!(in self.alloc; "find {pass} 0")?.as_str(),
                "held 0 1",
            )?;
        }
        self.add("audit", "refused 13")?;
        for pass in 0..16u32 {
            self.add(
                format!(in self.alloc; "look {pass}")?.as_str(),
                digits.as_str(),
            )?;
            self.add(format!(in self.alloc; "leave {pass}")?.as_str(), "ok")?;
        }
        self.add_all(&[
            "find 16 0|refused 12",
            "equal 15 0 aa|held 0 1",
            "leave 15|ok",
            "equal 15 0 ab|differs 0 1",
            "leave 15|ok",
        ])?;
        let empty = " gone:1".repeat(self.alloc, 1023)?;
        self.add(
            "audit",
            format!(in self.alloc; "audit found:1:{digits}{empty}")?.as_str(),
        )
        .map_err(Fail::from)
    }

    /// A copy takes the lowest frame of node 3, in its second life, and the dup the next one.
    fn part(&mut self) -> Result<(), Fail> {
        self.add_all(&[
            "put 0 1023 bb|ok",
            "movedup 0 3|ok",
            "find 0 0|held 769 2",
            "leave 0|ok",
            "mergeable 0|ok",
            "move 0 1023 2|ok",
            "drop 0 1023|ok",
            "get 0 1023|refused 2",
            "unmerge 0|unmerged 1023",
            "prune|pruned 1",
            "scan|scanned 0",
            "set run 2|unmerged 0",
            "stat|stat shared=0 sharing=0 unshared=0 volatile=0 chains=0 dups=0 full_scans=2",
        ])
    }

    /// Each page is stored to and read, some of them more than once.
    fn store_and_read(&mut self) -> Result<(), Fail> {
        for at in 0..4500u32 {
            let page = at % 1023;
            let byte = at % 256;
            self.add(
                format!(in self.alloc; "put 0 {page} {byte:02x}")?.as_str(),
                "ok",
            )?;
            let digits = format!(in self.alloc; "{byte:02x}")?.repeat(self.alloc, 64)?;
            self.add(
                format!(in self.alloc; "get 0 {page}")?.as_str(),
                digits.as_str(),
            )?;
        }
        Ok(())
    }
}

/// Nothing is refused for memory, and no status is made up, however many lines there are.
#[test]
fn a_large_table(rt: HostRuntime) -> Result<(), Fail> {
    let mut lines = Lines::new(rt.alloc());
    lines.merge_all()?;
    lines.look_up()?;
    lines.part()?;
    lines.store_and_read()?;
    let words = format!(in rt.alloc();
        "ksmbook --nodes 4 --frames 256 --passes 16 --tries {} --last-generation {} --",
        MOST_TRIES, MOST_LIVES
    )?;
    let host = Host::new(rt.alloc(), words.as_str(), lines.script.as_str(), None);
    assert!(rt; ended(&rt, host).is(Status::Done, lines.replies.as_str(), ""));
    Ok(())
}
