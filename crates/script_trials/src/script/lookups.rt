//! Lookups: holds that outlive their pages, and audits.
use super::*;

/// Scripts with lookups.
const ROWS: [Row<'static>; 12] = [
    // A frame that is held is not given again, and each way in which a lookup finds nothing.
    Row {
        name: "lookup_and_look",
        input: "reg 0 0 0 aa\nreg 0 1 0 aa\nset run 1\nscan 4\nfind 0 0\nlook 0\n",
        output: "ok\nok\nok\nscanned 4\nheld 0 1\n[aa]\n",
        ..ROW
    },
    Row {
        name: "dying_frame_may_be_joined",
        input: "reg 0 0 0 aa\nreg 0 1 0 aa\nset run 1\nscan 4\nfind 0 0\nlook 0\nput 0 0 bb\nput 0 1 cc\nreg 0 2 0 dd\nreg 0 3 0 ee\nfind 1 0\n",
        output: "ok\nok\nok\nscanned 4\nheld 0 1\n[aa]\nok\nok\nok\nrefused 4\nheld 0 1\n",
        ..ROW
    },
    Row {
        name: "stale_place_three_answers",
        input: "reg 0 0 0 aa\nreg 0 1 0 aa\nset run 1\nscan 4\nfind 0 0\nlook 0\nput 0 0 bb\nput 0 1 cc\nreg 0 2 0 dd\nreg 0 3 0 ee\nfind 1 0\nleave 1\nleave 0\nfind 0 0\nreg 0 3 0 ee\nfind 0 0\nprune\nfind 0 0\n",
        output: "ok\nok\nok\nscanned 4\nheld 0 1\n[aa]\nok\nok\nok\nrefused 4\nheld 0 1\nok\nok\ngone 2\nok\ngone 3\npruned 1\ngone 1\n",
        ..ROW
    },
    Row {
        name: "stale_dup_makes_room_and_lookups",
        frames: 3,
        input: "reg 0 0 0 aa\nreg 0 1 0 aa\nset run 1\nscan 4\nput 0 0 a1\nput 0 1 a1\nscan 4\nput 0 0 a2\nput 0 1 a2\nscan 4\nput 0 0 a3\nput 0 1 a3\nscan 4\nstat\nfind 0 0\nfind 1 1\nfind 1 2\nprune\nfind 1 1\n",
        output: "ok\nok\nok\nscanned 4\nok\nok\nscanned 4\nok\nok\nscanned 4\nok\nok\nscanned 4\nstat shared=1 sharing=1 unshared=0 volatile=0 chains=0 dups=0 full_scans=8\nheld 1 3\ngone 3\ngone 2\npruned 2\ngone 1\n",
        ..ROW
    },
    Row {
        name: "held_dying_frame_is_not_given",
        frames: 2,
        input: "reg 0 0 0 aa\nreg 0 1 0 aa\nset run 1\nscan 4\nfind 0 0\ndrop 0 0\ndrop 0 1\nreg 0 2 0 bb\nreg 0 3 0 cc\nlook 0\nleave 0\nreg 0 3 0 cc\nfind 0 0\n",
        output: "ok\nok\nok\nscanned 4\nheld 0 1\nok\nok\nok\nrefused 4\n[aa]\nok\nok\ngone 3\n",
        ..ROW
    },
    // A dup that is held cannot move, and one that moved is found in its new life.
    Row {
        name: "held_dup_cannot_move",
        nodes: 2,
        input: "reg 0 0 0 aa\nreg 0 1 0 aa\nset run 1\nscan 4\nfind 0 0\nmovedup 0 1\nleave 0\nmovedup 0 1\nfind 0 0\nlook 0\n",
        output: "ok\nok\nok\nscanned 4\nheld 0 1\nrefused 8\nok\nok\nheld 4 1\n[aa]\n",
        ..ROW
    },
    Row {
        name: "move_refusals_and_new_life",
        nodes: 2,
        input: "set merge_across_nodes 0\nreg 0 0 0 aa\nreg 0 1 0 aa\nset run 1\nscan 4\nmovedup 0 1\nmovedup 0 0\nfind 0 0\nmovedup 3 0\nmovedup 0 9\n",
        output: "ok\nok\nok\nok\nscanned 4\nrefused 9\nok\nheld 1 2\nrefused 10\nrefused 11\n",
        ..ROW
    },
    Row {
        name: "refused_moves_spend_no_life",
        frames: 2,
        last_generation: 2,
        input: "reg 0 0 0 aa\nreg 0 1 0 aa\nset run 1\nscan 4\nfind 0 0\nmovedup 0 0\nmovedup 0 0\nleave 0\nmovedup 0 0\nfind 0 0\nleave 0\nmovedup 0 0\nfind 0 0\nleave 0\nmovedup 0 0\n",
        output: "ok\nok\nok\nscanned 4\nheld 0 1\nrefused 8\nrefused 8\nok\nok\nheld 1 2\nok\nok\nheld 0 2\nok\nrefused 4\n",
        ..ROW
    },
    Row {
        name: "held_in_its_last_life",
        nodes: 2,
        frames: 1,
        last_generation: 2,
        input: "reg 0 0 0 aa\nreg 0 1 1 aa\nset run 1\nscan 4\nmovedup 0 1\nmovedup 0 0\nfind 0 0\nmovedup 0 1\nmovedup 0 0\nlook 0\nleave 0\nmovedup 0 1\n",
        output: "ok\nok\nok\nscanned 4\nok\nok\nheld 0 2\nrefused 4\nrefused 4\n[aa]\nok\nrefused 4\n",
        ..ROW
    },
    // The refusals of lines for passes, in their order, and an audit by the passes that hold nothing.
    Row {
        name: "audit_of_four_places",
        input: "reg 0 0 0 aa\nreg 0 1 0 aa\nset run 1\nscan 4\naudit\n",
        output: "ok\nok\nok\nscanned 4\naudit found:1:[aa] gone:1 gone:1 gone:1\n",
        ..ROW
    },
    Row {
        name: "differs_keeps_the_hold",
        input: "reg 0 0 0 aa\nreg 0 1 0 aa\nset run 1\nscan 4\nequal 0 0 bb\nfind 0 0\nleave 0\nleave 0\nlook 9\n",
        output: "ok\nok\nok\nscanned 4\ndiffers 0 1\nrefused 13\nok\nrefused 14\nrefused 12\n",
        ..ROW
    },
    Row {
        name: "three_holds_and_no_audit",
        passes: 3,
        input: "reg 0 0 0 aa\nreg 0 1 0 aa\nset run 1\nscan 4\nfind 0 0\nfind 1 0\nfind 2 0\nfind 3 0\naudit\n",
        output: "ok\nok\nok\nscanned 4\nheld 0 1\nheld 0 1\nheld 0 1\nrefused 12\nrefused 13\n",
        ..ROW
    },
];

/// Each script writes what its row says, and ends so.
#[test]
fn each_script_with_lookups(rt: HostRuntime) -> Result<(), Fail> {
    play_all(&rt, rt.alloc(), &ROWS)
}

/// What is held at the end of a run is given back, also where the run ends at a bad line.
#[test]
fn a_run_gives_its_holds_back(rt: HostRuntime) -> Result<(), Fail> {
    let merged = "reg 0 0 0 aa\nreg 0 1 0 aa\nset run 1\nscan 4\nfind 0 0\n";
    let rows = [
        Row {
            input: "find 0 0\n",
            output: "ok\nok\nok\nscanned 4\nheld 0 1\nrefused 13\n",
            ..ROW
        },
        Row {
            input: "BAD\n",
            output: "ok\nok\nok\nscanned 4\nheld 0 1\nbad line 6\n",
            end: Ok(End::BadLine(6)),
            ..ROW
        },
    ];
    for row in rows {
        let mut reader = merged.as_bytes().chain(row.input.as_bytes());
        let mut more = "look 0\nfind 0 0\n".as_bytes();
        let then = (Ok(End::AllRead), "refused 14\nheld 0 1\n");
        assert!(rt; goes_so(&rt, rt.alloc(), row, &mut reader, &mut more, then)?);
    }
    Ok(())
}
