ghost use Rattle.std.specs.Prelude.{◌≡◌, ◌↔◌, ℕ, List};
ghost use Rattle.commands.specs.Runs.{Run, AreRunsOf, runs};

/// Lines have one list of maximal runs by their keys, and `runs` is that list (POSIX.1-2017 XCU uniq).
pub fn lines_have_one_list_of_runs()
    ensures { (key : List ℕ → List ℕ) (ls : List (List ℕ)) (rs : List Run) → AreRunsOf key ls rs
        ↔ (rs ≡ runs key ls) }
{}
