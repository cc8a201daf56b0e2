// Laws of the definitions, each as the contract of a function that does nothing.
ghost use Rattle.std.specs.Prelude.{◌≡◌, ◌↔◌, ℕ, List, [], ◌∷◌, ◌++◌, Bool, false};
ghost use Rattle.std.specs.List.{All, concat};
ghost use Rattle.machine.specs.Law.{Shown, IsEmptyOn, IsLawful, Feeds, Closes, with_closed};
ghost use Rattle.machine.specs.Lines.{lines, led, content, newline, HasNoNewline, IsLine, AreLinesOf};
ghost use Rattle.machine.specs.Makes.{Makes, after, with_taken};
ghost use Rattle.machine.specs.Pieces.{Queued};
ghost use Rattle.machine.specs.Whole.{StreamAnswer};
ghost use Rattle.machine.specs.declared.protocol.Want.{Want};

/// A stream has one list of lines, and `lines` is that list (POSIX.1-2017 XBD 3.206, 3.195).
pub fn streams_have_one_list_of_lines()
    ensures { (stream : List ℕ) (ls : List (List ℕ)) → AreLinesOf stream ls ↔ (ls ≡ lines stream) }
{}

/// Lines that are followed by more bytes stay as they are, and a beginning without a newline leads the first line of
/// what follows: so a stream may be cut anywhere.
pub fn lines_go_on()
    ensures whole { (ls : List (List ℕ)) (more : List ℕ) → All IsLine ls
        → lines (concat ls ++ more) ≡ ls ++ lines more }
    ensures begun { (front more : List ℕ) → HasNoNewline front
        → lines (front ++ more) ≡ led front (lines more) }
    ensures content { (front : List ℕ) → HasNoNewline front
        → content (front ++ newline ∷ []) ≡ front }
{}

/// The output stays right for the input with every piece that is fed, and with every input that is closed.
pub fn made_stays_right()
    ensures fed { (answer : StreamAnswer) (old new : Shown) (ended : ℕ → Bool)
        (taken : ℕ → List ℕ) (made : List ℕ) (out out' : Queued) (i : ℕ) (piece : List ℕ)
        → old.closed i ≡ false → (g : Feeds i piece old new out out')
        → Makes answer old ended taken made
        → Makes answer new ended (with_taken i piece taken) (made ++ g.made) }
    ensures closed { (answer : StreamAnswer) (old new : Shown) (ended : ℕ → Bool)
        (taken : ℕ → List ℕ) (made : List ℕ) (out out' : Queued) (i : ℕ)
        → (g : Closes i old new out out') → Makes answer old ended taken made
        → Makes answer new (with_closed i ended) taken (made ++ g.made) }
{}

/// Once a machine has finished, its output is the answer to its input.
pub fn a_finished_machine_has_made_its_answer()
    ensures { (answer : StreamAnswer) (m : Shown) (ended : ℕ → Bool) (taken : ℕ → List ℕ)
        (made : List ℕ)
        → IsLawful m → m.wanted ≡ Want.Finished → Makes answer m ended taken made
        → (ys : ℕ → List ℕ) → IsEmptyOn m.closed ys → (answer (after taken ys)).out ≡ made }
{}
