// Laws of calls and returns, which the crates above cite: the contract of each function is the law, and it does nothing.
ghost use Rattle.std.specs.Prelude.{◌≡◌, ◌≤◌, ℕ, true};
ghost use Rattle.cc_line.specs.Key.{PieceId};
ghost use Rattle.cc_text.specs.Short.{acts_short, id_short, steps_short};
ghost use Rattle.cc_call.specs.Fetch.{fetch_acts, making_acts};
ghost use Rattle.cc_call.specs.Frames.{base_acts, depth_steps, done_acts, opening_acts, pass_acts, push_acts};
ghost use Rattle.cc_call.specs.Frames.{restore_acts, return_acts};
ghost use Rattle.cc_call.specs.Law.{ArgumentsAreFetched, ArgumentsArePassed, BasesAreMade, DepthIsTested, FramesAreMade};
ghost use Rattle.cc_call.specs.Law.{FramesAreOpened, FramesArePushed, FramesAreRestored, JobsAreEnded, ResultsAreHanded};

/// Law: a call saves its caller's frame, with the piece that follows, below all others; and from the last of the frames
/// below, the frame stands again, with the results of the call behind the places that were in use, and its entry is
/// gone.
pub fn frames_are_saved()
    ensures push { FramesArePushed }
    ensures restore { FramesAreRestored }
{}

/// Law: the arguments of a call become the first places, and a function whose arguments stand there gets a frame with
/// these, and with zeros for its other locals.
pub fn arguments_are_passed()
    ensures pass { ArgumentsArePassed }
    ensures opening { FramesAreOpened }
{}

/// Law: a function whose arguments are still to be fetched gets a frame with zeros for its other locals, the piece is
/// next that followed, and another one follows; and numbers of the last of the frames below become places, whichever
/// of them stand in a list there.
pub fn arguments_are_fetched()
    ensures making { FramesAreMade }
    ensures fetch { ArgumentsAreFetched }
{}

/// Law: a return hands its results over, and the piece is next that follows the call of the last frame below.
pub fn results_are_handed()
    ensures { ResultsAreHanded }
{}

/// Law: where fewer frames stand than may, a call goes on; else it records its trap, and ends its list.
pub fn frames_are_limited()
    ensures { DepthIsTested }
{}

/// Law: a job begins with one entry below, which leads to the job's end; and there its results are told.
pub fn jobs_begin_and_end()
    ensures base { BasesAreMade }
    ensures done { JobsAreEnded }
{}

/// Law: the acts of calls and returns are short where the names of the pieces are that they lay down, and frames have
/// at most 8,000 places: under every namespace files of them can be kept.
pub fn items_are_short()
    ensures depth { steps_short depth_steps ≡ true }
    ensures push { (z : ℕ) → (i : PieceId) → id_short i ≡ true → acts_short (push_acts z i) ≡ true }
    ensures pass { (z : ℕ) → (n : ℕ) → (j : ℕ) → acts_short (pass_acts z j n) ≡ true }
    ensures opening { (params : ℕ) → (locals : ℕ) → (size : ℕ) → (next : PieceId) → size ≤ 8000
        → id_short next ≡ true → acts_short (opening_acts params locals size next) ≡ true }
    ensures making { (params : ℕ) → (locals : ℕ) → (size : ℕ) → (following : PieceId) → size ≤ 8000
        → id_short following ≡ true → acts_short (making_acts params locals size following) ≡ true }
    ensures fetch { (n : ℕ) → (z : ℕ) → (j : ℕ) → acts_short (fetch_acts z j n) ≡ true }
    ensures hand { (n : ℕ) → (h : ℕ) → acts_short (return_acts n h) ≡ true }
    ensures restore { (z : ℕ) → (results : ℕ) → (size : ℕ) → (next : PieceId) → size ≤ 8000 → id_short next ≡ true
        → acts_short (restore_acts z results size next) ≡ true }
    ensures base { (results : ℕ) → results ≤ 1000 → acts_short (base_acts results) ≡ true }
    ensures done { (w : ℕ) → w ≤ 1000 → acts_short (done_acts w) ≡ true }
{}
