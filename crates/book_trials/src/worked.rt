//! Worked commands: the steps that they make on the frames, and the nodes on which they get one. Each is a law, with
//! nothing to run.

ghost use Rattle.std.specs.Prelude.{◌≡◌, [], ◌∷◌, None, Some, Ok, Err};
ghost use Rattle.ksm_book.specs.Terms.{Add, Done, lies_on, MoveDup, MovePage, NoFrame, nowhere, Publish, Register, Scan, Scanned, SetRun, Store, Sub, Unmerge, Unmerged, Withdraw};
ghost use Rattle.ksm_book.specs.Whole.{nodes_got};
ghost use Rattle.book_trials.specs.Worked.{alone, apart, full, merged, page, stale, three, together};
ghost use Rattle.ksm_book.specs.Carried.{scanning};
ghost use Rattle.ksm_book.specs.Commands.{emptying, pruning};

/// A visit that makes a dup has its place name the waiting page's frame, which the visited page gets, and its own loses
/// a reference. One that joins adds a reference there before it leaves its own frame. No visit before them makes a
/// step.
pub fn steps_of_visits()
    ensures waits { scanning 4 three apart ≡ record { steps = []; frame = apart } }
    ensures makes { scanning 5 three apart ≡ record {
      steps = Publish 0 0 ∷ Add 0 ∷ Sub 1 ∷ [];
      frame = lies_on (page 1) (Some 0) apart;
    } }
    ensures joins { scanning 6 three apart ≡ record {
      steps = Publish 0 0 ∷ Add 0 ∷ Sub 1 ∷ Add 0 ∷ Sub 4 ∷ [];
      frame = together;
    } }
    ensures stays { scanning 3 merged together ≡ record { steps = []; frame = together } }
{}

/// A page that goes leaves its frame. A stale dup that is pruned is withdrawn from its place, one with items stays.
pub fn steps_of_leaving()
    ensures goes { emptying together (page 1) ≡ record {
      steps = Sub 0 ∷ [];
      frame = lies_on (page 0) (Some 0) (lies_on (page 2) (Some 0) nowhere);
    } }
    ensures prunes { pruning stale.rows stale.dups alone ≡ record { steps = Withdraw 0 ∷ []; frame = alone } }
    ensures keeps { pruning merged.rows merged.dups together ≡ record { steps = []; frame = together } }
{}

/// A page gets a frame on the node where it needs one: a new page's, its home where it leaves its dup, the node that it
/// moves to. It gets none where it has one of its own, or stays at its home, or the command is refused.
pub fn nodes_of_a_page()
    ensures registered { nodes_got merged (Ok Done) (Register (page 3) 1 (full 0xbb)) ≡ 1 ∷ [] }
    ensures copied { nodes_got merged (Ok Done) (Store (page 2) (full 0xbb)) ≡ 1 ∷ [] }
    ensures in_place { nodes_got three (Ok Done) (Store (page 2) (full 0xbb)) ≡ [] }
    ensures moved { nodes_got merged (Ok Done) (MovePage (page 2) 0) ≡ 0 ∷ [] }
    ensures at_home { nodes_got merged (Ok Done) (MovePage (page 2) 1) ≡ [] }
    ensures refused { nodes_got merged (Err (NoFrame 1)) (Store (page 2) (full 0xbb)) ≡ [] }
{}

/// A dup that moves gets a frame on its new node. Pages that leave their dups get one each on their homes, up to the
/// one that finds none. A scan gets none.
pub fn nodes_of_dups()
    ensures moved { nodes_got merged (Ok Done) (MoveDup 0 1) ≡ 1 ∷ [] }
    ensures unmerged { nodes_got merged (Ok (Unmerged 3 None)) (Unmerge 0) ≡ 0 ∷ 0 ∷ 1 ∷ [] }
    ensures stopped { nodes_got merged (Ok (Unmerged 1 (Some (NoFrame 0)))) (SetRun 2) ≡ 0 ∷ [] }
    ensures scanned { nodes_got three (Ok (Scanned 6 None)) (Scan 6) ≡ [] }
{}
