//! What the kernel's own tests of this feature check, as scripts.
ghost use Rattle.std.specs.Prelude.{◌≤◌};

use super::*;

/// So many equal pages at a limit, two passes over them, and the counters.
fn equal_pages(alloc: Global, pages: u8, limit: u8) -> Result<String, AllocError> {
    let mut script = format!(in alloc; "set max_page_sharing {limit}\nset run 1\n")?;
    for page in 0..pages {
        script.push_str(format!(in alloc; "reg 0 {page} 0 2a\n")?.as_str())?;
    }
    script.push_str(format!(in alloc; "scan {}\nstat\n", 2 * u32::from(pages))?.as_str())?;
    Ok(script)
}

/// The pages that share, those that a further page shares, and those that wait, by the kernel's count: full groups of
/// the limit, and a group more for a rest of two or more. A rest of one has nobody to share with.
fn counted(pages: u8, limit: u8) -> (u32, u32, u32)
    requires { 2 ≤ limit }
{
    let (pages, limit) = (u32::from(pages), u32::from(limit));
    let full = pages / limit;
    match pages % limit {
        0 => (full, full * (limit - 1), 0),
        1 => (full, full * (limit - 1), 1),
        _ => (full + 1, pages - (full + 1), 0),
    }
}

/// What is written for them. Two groups or more of one content are one chain.
fn replies(alloc: Global, pages: u8, limit: u8) -> Result<String, AllocError>
    requires { 2 ≤ limit }
{
    let mut replies = format!(in alloc; "ok\nok\n")?;
    for _ in 0..pages {
        replies.push_str("ok\n")?;
    }
    let (shared, sharing, unshared) = counted(pages, limit);
    let (chains, dups) = if shared > 1 { (1, shared) } else { (0, 0) };
    let visits = 2 * u32::from(pages);
    let stat = format!(in alloc;
        "scanned {visits}\nstat shared={shared} sharing={sharing} unshared={unshared} volatile=0 chains={chains} dups={dups} full_scans=2\n"
    )?;
    replies.push_str(stat.as_str())?;
    Ok(replies)
}

/// Whether so many equal pages at this limit are counted as the kernel's test expects.
fn counts_so<T: Threads + Wait + Sync>(
    rt: &T,
    alloc: Global,
    pages: u8,
    limit: u8,
) -> Result<bool, Fail>
    requires { 2 ≤ limit }
{
    let input = equal_pages(alloc, pages, limit)?;
    let output = replies(alloc, pages, limit)?;
    let row = Row {
        frames: u32::from(pages),
        input: input.as_str(),
        output: output.as_str(),
        ..ROW
    };
    plays(rt, alloc, row)
}

/// The count that the kernel's test expects of equal pages, at each number of them and each limit.
#[test]
fn equal_pages_at_each_limit(rt: HostRuntime) -> Result<(), Fail> {
    for pages in 2..25 {
        for limit in 2..9 {
            assert!(rt;
                counts_so(&rt, rt.alloc(), pages, limit)?,
                "{pages} pages at limit {limit}"
            );
        }
    }
    Ok(())
}

/// Scripts that do what the kernel's tests do.
const ROWS: [Row<'static>; 11] = [
    // Ten equal pages, in two passes: below the limit they make one dup, at limit three one of them waits.
    Row {
        name: "ten_pages_make_one_dup",
        frames: 10,
        input: "reg 0 0 0 2a\nreg 0 1 0 2a\nreg 0 2 0 2a\nreg 0 3 0 2a\nreg 0 4 0 2a\nreg 0 5 0 2a\nreg 0 6 0 2a\nreg 0 7 0 2a\nreg 0 8 0 2a\nreg 0 9 0 2a\nset run 1\nscan 20\nstat\n",
        output: "ok\nok\nok\nok\nok\nok\nok\nok\nok\nok\nok\nscanned 20\nstat shared=1 sharing=9 unshared=0 volatile=0 chains=0 dups=0 full_scans=2\n",
        ..ROW
    },
    Row {
        name: "ten_pages_at_limit_three",
        frames: 10,
        input: "set max_page_sharing 3\nreg 0 0 0 2a\nreg 0 1 0 2a\nreg 0 2 0 2a\nreg 0 3 0 2a\nreg 0 4 0 2a\nreg 0 5 0 2a\nreg 0 6 0 2a\nreg 0 7 0 2a\nreg 0 8 0 2a\nreg 0 9 0 2a\nset run 1\nscan 20\nstat\n",
        output: "ok\nok\nok\nok\nok\nok\nok\nok\nok\nok\nok\nok\nscanned 20\nstat shared=3 sharing=6 unshared=1 volatile=0 chains=1 dups=3 full_scans=2\n",
        ..ROW
    },
    Row {
        name: "ten_pages_at_limit_four",
        frames: 10,
        input: "set max_page_sharing 4\nreg 0 0 0 2a\nreg 0 1 0 2a\nreg 0 2 0 2a\nreg 0 3 0 2a\nreg 0 4 0 2a\nreg 0 5 0 2a\nreg 0 6 0 2a\nreg 0 7 0 2a\nreg 0 8 0 2a\nreg 0 9 0 2a\nset run 1\nscan 20\nstat\n",
        output: "ok\nok\nok\nok\nok\nok\nok\nok\nok\nok\nok\nok\nscanned 20\nstat shared=3 sharing=7 unshared=0 volatile=0 chains=1 dups=3 full_scans=2\n",
        ..ROW
    },
    // Two merged pages, of each of which the first byte is written, share nothing.
    Row {
        name: "written_pages_share_nothing",
        input: "reg 0 0 0 aa\nreg 0 1 0 aa\nset run 1\nscan 4\nput 0 0 2d[aa-]\nput 0 1 2b[aa-]\nscan 2\nstat\n",
        output: "ok\nok\nok\nscanned 4\nok\nok\nscanned 2\nstat shared=0 sharing=0 unshared=0 volatile=2 chains=0 dups=0 full_scans=3\n",
        ..ROW
    },
    // Equal pages of two nodes merge where the knob says so.
    Row {
        name: "two_nodes_merge",
        nodes: 2,
        frames: 2,
        input: "reg 0 0 0 2a\nreg 0 1 1 2a\nset run 1\nscan 4\nstat\n",
        output: "ok\nok\nok\nscanned 4\nstat shared=1 sharing=1 unshared=0 volatile=0 chains=0 dups=0 full_scans=2\n",
        ..ROW
    },
    Row {
        name: "two_nodes_stay_apart",
        nodes: 2,
        frames: 2,
        input: "set merge_across_nodes 0\nreg 0 0 0 2a\nreg 0 1 1 2a\nset run 1\nscan 4\nstat\n",
        output: "ok\nok\nok\nok\nscanned 4\nstat shared=0 sharing=0 unshared=2 volatile=0 chains=0 dups=0 full_scans=2\n",
        ..ROW
    },
    // Eight merged pages are unmerged, each on a frame of its own; with eight frames the last finds none, since its own is
    // still in use.
    Row {
        name: "eight_pages_unmerged_with_nine_frames",
        frames: 9,
        input: "reg 0 0 0 2a\nreg 0 1 0 2a\nreg 0 2 0 2a\nreg 0 3 0 2a\nreg 0 4 0 2a\nreg 0 5 0 2a\nreg 0 6 0 2a\nreg 0 7 0 2a\nset run 1\nscan 16\nunmerge 0\nticket 0 0\nticket 0 1\nticket 0 2\nticket 0 3\nticket 0 4\nticket 0 5\nticket 0 6\nticket 0 7\n",
        output: "ok\nok\nok\nok\nok\nok\nok\nok\nok\nscanned 16\nunmerged 8\nprivate\nprivate\nprivate\nprivate\nprivate\nprivate\nprivate\nprivate\n",
        ..ROW
    },
    Row {
        name: "eight_pages_unmerged_with_eight_frames",
        frames: 8,
        input: "reg 0 0 0 2a\nreg 0 1 0 2a\nreg 0 2 0 2a\nreg 0 3 0 2a\nreg 0 4 0 2a\nreg 0 5 0 2a\nreg 0 6 0 2a\nreg 0 7 0 2a\nset run 1\nscan 16\nunmerge 0\nticket 0 0\nticket 0 1\nticket 0 2\nticket 0 3\nticket 0 4\nticket 0 5\nticket 0 6\nticket 0 7\n",
        output: "ok\nok\nok\nok\nok\nok\nok\nok\nok\nscanned 16\nunmerged 7 refused 4\nprivate\nprivate\nprivate\nprivate\nprivate\nprivate\nprivate\nplace 0\n",
        ..ROW
    },
    // Pages of zeroes merge with each other, or with the zero page; those that are unmerged or written leave it.
    Row {
        name: "zero_pages_merge_with_each_other",
        frames: 10,
        input: "reg 0 0 0 00\nreg 0 1 0 00\nreg 0 2 0 00\nreg 0 3 0 00\nreg 0 4 0 00\nreg 0 5 0 00\nreg 0 6 0 00\nreg 0 7 0 00\nreg 0 8 0 00\nreg 0 9 0 00\nset run 1\nscan 20\nstat\nshow ksm_zero_pages\n",
        output: "ok\nok\nok\nok\nok\nok\nok\nok\nok\nok\nok\nscanned 20\nstat shared=1 sharing=9 unshared=0 volatile=0 chains=0 dups=0 full_scans=2\n0\n",
        ..ROW
    },
    Row {
        name: "zero_pages_merge_with_the_zero_page",
        frames: 10,
        input: "set use_zero_pages 1\nreg 0 0 0 00\nreg 0 1 0 00\nreg 0 2 0 00\nreg 0 3 0 00\nreg 0 4 0 00\nreg 0 5 0 00\nreg 0 6 0 00\nreg 0 7 0 00\nreg 0 8 0 00\nreg 0 9 0 00\nset run 1\nscan 20\nstat\nshow ksm_zero_pages\n",
        output: "ok\nok\nok\nok\nok\nok\nok\nok\nok\nok\nok\nok\nscanned 20\nstat shared=0 sharing=0 unshared=0 volatile=0 chains=0 dups=0 full_scans=2\n10\n",
        ..ROW
    },
    Row {
        name: "unmerged_and_written_zero_pages",
        input: "set use_zero_pages 1\nreg 0 0 0 00\nreg 0 1 0 00\nreg 1 0 0 00\nreg 1 1 0 00\nset run 1\nscan 8\nshow ksm_zero_pages\nunmerge 0\nshow ksm_zero_pages\nput 1 0 01\nput 1 1 02\nshow ksm_zero_pages\n",
        output: "ok\nok\nok\nok\nok\nok\nscanned 8\n4\nunmerged 2\n2\nok\nok\n0\n",
        ..ROW
    },
];

/// Each script writes what its row says, and ends so.
#[test]
fn each_script_of_the_kernel(rt: HostRuntime) -> Result<(), Fail> {
    play_all(&rt, rt.alloc(), &ROWS)
}
