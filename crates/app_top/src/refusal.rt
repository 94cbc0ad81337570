//! Why a run ends before all is done: the line and the status of each cause.

ghost use Rattle.std.specs.Prelude.{◌≡◌, ◌∷◌, ◌++◌, IfOk, codes};
ghost use Rattle.app_top.specs.declared.refusal.Refusal.TheVariants as refusals;
ghost use Rattle.app_top.specs.steps.RefusalOf.{of_decode, of_match, of_profile, of_script, of_valid, of_words};
ghost use Rattle.app_top.specs.Refusal.{fault_text, line_of, of_get, of_play, of_put, read_cause as read_cause_of};
ghost use Rattle.app_top.specs.Refusal.{script_line as script_line_of, status_of, turn_cause as turn_cause_of};
ghost use Rattle.app_words.specs.Lines.{ended_line};

use app_play::{Cause, PlayFault};
use app_words::{ScriptFault, WordsFault};
use mc_nbt::{Memory, Text};
use pk_files::{GetFault, PACK_CAP, PutFault};
use std::alloc::{AllocError, AllocFailed, Global};
use wm_decode::DecodeFault;
use wm_match::MatchFault;
use wm_profile::ProfileFault;
use wm_valid::ValidFault;

// The forms of the words.
const USAGE: &str = "usage: dpwasm compile FILE DIR NS or costs FILE DIR NS or run DIR SCRIPT \
    or exec FILE DIR NS SCRIPT or gen NUMBER SIZE FILE DIR or join MAIN DIR NS SCRIPT NAME FILE .. \
    or multi SCRIPT DIR .. or inspect FILE DIR NS SCRIPT\n";

/// How a run ended. Its number is the exit status of the program.
#[derive(Clone, Copy, Debug, PartialEq, Eq)]
pub enum Status {
    /// All was done.
    Done,
    /// The words are in no form.
    Usage,
    /// The module was refused.
    Module,
    /// A file could not be read.
    Read,
    /// A file or the output could not be written.
    Write,
    /// A pack was refused.
    Pack,
    /// There was no memory.
    Memory,
    /// The script was refused.
    Script,
    /// A folder was not empty.
    NotEmpty,
}

/// Why a run ended before all was done.
#[derive(Debug, Drop)]
pub enum Refusal {
    /// The words are in no form.
    Usage,
    /// The bytes spell no module. The fault inside is never `Memory`.
    NotDecoded(DecodeFault),
    /// The bytes of the file at this path spell no module. The fault inside is never `Memory`.
    NotDecodedAt { path: Text, fault: DecodeFault },
    /// The modules aren't linked. The fault inside is never `Memory`.
    NotLinked(MatchFault),
    /// The module is not in the profile.
    NotInProfile(ProfileFault),
    /// The module is in the profile, and not valid, or a function of it is too high. The fault inside is never
    /// `Memory`.
    NotValid(ValidFault),
    /// The file at this path could not be read.
    CannotRead(Text),
    /// The folder at this path could not be listed.
    CannotList(Text),
    /// The file at this path has more bytes than these.
    TooLong { path: Text, cap: u64 },
    /// The file at this path could not be written.
    CannotWrite(Text),
    /// The output could not be written.
    Output,
    /// The folder has no `pack.mcmeta` of the form.
    NoMeta,
    /// The folder has no `dpwasm.json` of the form.
    BadIndex,
    /// The folder has no tag of this name of the form.
    BadTag(Text),
    /// The folder has more files of functions than a pack has functions.
    TooManyFiles,
    /// The line of this number of the function of this name says nothing that a pack may say.
    BadLine { name: Text, line: u64 },
    /// The folder at this path says no pack. The fault inside is one that tells what its files say.
    NoPackAt { path: Text, fault: GetFault },
    /// The pack at this place has the namespace of one before it.
    SameSpace { place: usize },
    /// In the pack of the folder at this path the function of this name has a line that isn't tidy: the one of this
    /// number.
    Untidy { path: Text, name: Text, line: usize },
    /// The line of this number of the script is no script line; for a low budget alone or not.
    Script { line: u64, low: bool },
    /// The line of this number of the script would be a script line but for a budget below this, which is the least one
    /// of several programs.
    LowBudget { line: u64, least: u32 },
    /// The line of this number of the script was refused when its turn came.
    Refused { line: u64, cause: Cause },
    /// The folder of the pack shows names; this is the first of them.
    NotEmpty(Text),
    /// There was no memory.
    Memory,
}

impl From<Memory> for Refusal {
    ghost from_gives = { λ _ refusal. refusal ≡ refusals.Memory };

    fn from(_: Memory) -> Self {
        Refusal::Memory
    }
}

impl From<AllocError> for Refusal {
    ghost from_gives = { λ _ refusal. refusal ≡ refusals.Memory };

    fn from(_: AllocError) -> Self {
        Refusal::Memory
    }
}

impl<T: Drop> From<AllocFailed<T>> for Refusal {
    ghost from_gives = { λ _ refusal. refusal ≡ refusals.Memory };

    fn from(_: AllocFailed<T>) -> Self {
        Refusal::Memory
    }
}

impl From<DecodeFault> for Refusal {
    ghost from_gives = { λ fault refusal. refusal ≡ of_decode fault };

    fn from(fault: DecodeFault) -> Self {
        match fault {
            DecodeFault::Memory => Refusal::Memory,
            fault => Refusal::NotDecoded(fault),
        }
    }
}

impl From<MatchFault> for Refusal {
    ghost from_gives = { λ fault refusal. refusal ≡ of_match fault };

    fn from(fault: MatchFault) -> Self {
        match fault {
            MatchFault::Memory => Refusal::Memory,
            fault => Refusal::NotLinked(fault),
        }
    }
}

impl From<ProfileFault> for Refusal {
    ghost from_gives = { λ fault refusal. refusal ≡ of_profile fault };

    fn from(fault: ProfileFault) -> Self {
        Refusal::NotInProfile(fault)
    }
}

impl From<ValidFault> for Refusal {
    ghost from_gives = { λ fault refusal. refusal ≡ of_valid fault };

    fn from(fault: ValidFault) -> Self {
        match fault {
            ValidFault::Memory => Refusal::Memory,
            fault => Refusal::NotValid(fault),
        }
    }
}

impl From<ScriptFault> for Refusal {
    ghost from_gives = { λ fault refusal. refusal ≡ of_script fault };

    fn from(fault: ScriptFault) -> Self {
        match fault {
            ScriptFault::Line { line, low } => Refusal::Script { line, low },
            ScriptFault::Memory => Refusal::Memory,
        }
    }
}

impl From<WordsFault> for Refusal {
    ghost from_gives = { λ fault refusal. refusal ≡ of_words fault };

    fn from(fault: WordsFault) -> Self {
        match fault {
            WordsFault::Usage => Refusal::Usage,
            WordsFault::Memory => Refusal::Memory,
        }
    }
}

impl From<PutFault> for Refusal {
    ghost from_gives = { λ fault refusal. refusal ≡ of_put fault };

    fn from(fault: PutFault) -> Self {
        match fault {
            PutFault::NotEmpty { name } => Refusal::NotEmpty(name),
            PutFault::ListFailed { path } => Refusal::CannotList(path),
            PutFault::Failed { path } => Refusal::CannotWrite(path),
            PutFault::Memory => Refusal::Memory,
        }
    }
}

impl From<GetFault> for Refusal {
    ghost from_gives = { λ fault refusal. refusal ≡ of_get fault };

    fn from(fault: GetFault) -> Self {
        match fault {
            GetFault::ListFailed { path } => Refusal::CannotList(path),
            GetFault::Failed { path } => Refusal::CannotRead(path),
            GetFault::TooLong { path } => Refusal::TooLong {
                path,
                cap: PACK_CAP,
            },
            GetFault::NoMeta => Refusal::NoMeta,
            GetFault::BadIndex => Refusal::BadIndex,
            GetFault::BadTag { name } => Refusal::BadTag(name),
            GetFault::TooMany { .. } => Refusal::TooManyFiles,
            GetFault::BadLine { name, line } => Refusal::BadLine { name, line },
            GetFault::Memory => Refusal::Memory,
        }
    }
}

impl From<PlayFault> for Refusal {
    ghost from_gives = { λ fault refusal. refusal ≡ of_play fault };

    fn from(fault: PlayFault) -> Self {
        match fault {
            PlayFault::Output => Refusal::Output,
            PlayFault::Refused { line, cause } => Refusal::Refused { line, cause },
            PlayFault::Memory => Refusal::Memory,
        }
    }
}

impl Refusal {
    /// The status of a run that ends so.
    pub fn status(&self) -> Status
        ensures { result ≡ status_of self.now }
    {
        match self {
            Refusal::Usage => Status::Usage,
            Refusal::NotDecoded(_)
            | Refusal::NotDecodedAt { .. }
            | Refusal::NotLinked(_)
            | Refusal::NotInProfile(_)
            | Refusal::NotValid(_) => Status::Module,
            Refusal::CannotRead(_) | Refusal::CannotList(_) | Refusal::TooLong { .. } =>
                Status::Read,
            Refusal::CannotWrite(_) | Refusal::Output => Status::Write,
            Refusal::NoMeta
            | Refusal::BadIndex
            | Refusal::BadTag(_)
            | Refusal::TooManyFiles
            | Refusal::BadLine { .. }
            | Refusal::NoPackAt { .. }
            | Refusal::SameSpace { .. }
            | Refusal::Untidy { .. } => Status::Pack,
            Refusal::Script { .. } | Refusal::LowBudget { .. } | Refusal::Refused { .. } =>
                Status::Script,
            Refusal::NotEmpty(_) => Status::NotEmpty,
            Refusal::Memory => Status::Memory,
        }
    }

    /// The line that tells the cause, with the line feed that ends it.
    ///
    /// # Errors
    ///
    /// `Memory` where there is no room for the line.
    pub fn line(&self, alloc: Global) -> Result<Text, Memory>
        ensures { IfOk result (λ line. line ≡ line_of self.now) }
    {
        match self {
            Refusal::Usage => Text::new(alloc, USAGE),
            Refusal::NotDecoded(fault) => not_decoded(alloc, *fault),
            Refusal::NotDecodedAt { path, fault } => not_decoded_at(alloc, path, *fault),
            Refusal::NotLinked(fault) => not_linked(alloc, *fault),
            Refusal::NotInProfile(fault) => not_in_profile(alloc, *fault),
            Refusal::NotValid(fault) => not_valid(alloc, *fault),
            Refusal::CannotRead(path) => cannot(alloc, "read", path),
            Refusal::CannotList(path) => cannot(alloc, "list", path),
            Refusal::TooLong { path, cap } => too_long(alloc, path, *cap),
            Refusal::CannotWrite(path) => cannot(alloc, "write", path),
            Refusal::Output => Text::new(alloc, "cannot write output\n"),
            Refusal::NoMeta => Text::new(alloc, "pack: no pack.mcmeta\n"),
            Refusal::BadIndex => Text::new(alloc, "pack: bad index\n"),
            Refusal::BadTag(name) => bad_tag(alloc, name),
            Refusal::TooManyFiles => Text::new(alloc, "pack: too many files\n"),
            Refusal::BadLine { name, line } => bad_line(alloc, name, *line),
            Refusal::NoPackAt { path, fault } => no_pack_at(alloc, path, fault),
            Refusal::SameSpace { place } => same_space(alloc, *place),
            Refusal::Untidy { path, name, line } => untidy(alloc, path, name, *line),
            Refusal::Script { line, low } => script_line(alloc, *line, read_cause(*low)),
            Refusal::LowBudget { line, least } => low_budget(alloc, *line, *least),
            Refusal::Refused { line, cause } => refused_line(alloc, *line, cause),
            Refusal::NotEmpty(name) => not_empty(alloc, name),
            Refusal::Memory => Text::new(alloc, "out of memory\n"),
        }
    }
}

fn read_cause(low: bool) -> &'static str
    ensures { result.now ≡ read_cause_of low }
{
    if low {
        "budget below 512"
    } else {
        "not a script line"
    }
}

fn refused_line(alloc: Global, line: u64, cause: &Cause) -> Result<Text, Memory>
    ensures { IfOk result (λ t. t ≡ script_line_of line (turn_cause_of cause.now)) }
{
    match cause {
        Cause::NoSuchExport => script_line(alloc, line, "no such export"),
        Cause::WrongArguments => script_line(alloc, line, "wrong arguments"),
        Cause::InstanceIsDead => script_line(alloc, line, "the instance is dead"),
        Cause::Names(name) => names_line(alloc, line, name),
        Cause::NoSuchProgram => script_line(alloc, line, "no such program"),
    }
}

fn low_budget(alloc: Global, line: u64, least: u32) -> Result<Text, Memory>
    ensures { IfOk result (λ t. t ≡ line_of (refusals.LowBudget line least)) }
{
    Ok(Text::from(format!(in alloc; "script line {line}: budget below {least}\n")?))
}

fn names_line(alloc: Global, line: u64, name: &Text) -> Result<Text, Memory>
    ensures { IfOk result (λ t. t ≡ script_line_of line (codes "names " ++ name.now)) }
{
    Ok(Text::from(format!(in alloc; "script line {line}: names {name}\n")?))
}

fn script_line(alloc: Global, line: u64, cause: &str) -> Result<Text, Memory>
    ensures { IfOk result (λ t. t ≡ script_line_of line cause.now) }
{
    Ok(Text::from(format!(in alloc; "script line {line}: {cause}\n")?))
}

fn not_decoded(alloc: Global, fault: DecodeFault) -> Result<Text, Memory>
    ensures { IfOk result (λ t. t ≡ line_of (refusals.NotDecoded fault)) }
{
    Ok(Text::from(format!(in alloc; "module: {fault}\n")?))
}

fn not_decoded_at(alloc: Global, path: &Text, fault: DecodeFault) -> Result<Text, Memory>
    ensures { IfOk result (λ t. t ≡ line_of (refusals.NotDecodedAt path.now fault)) }
{
    Ok(Text::from(format!(in alloc; "{path}: {fault}\n")?))
}

fn not_linked(alloc: Global, fault: MatchFault) -> Result<Text, Memory>
    ensures { IfOk result (λ t. t ≡ line_of (refusals.NotLinked fault)) }
{
    Ok(Text::from(format!(in alloc; "join: {fault}\n")?))
}

fn not_in_profile(alloc: Global, fault: ProfileFault) -> Result<Text, Memory>
    ensures { IfOk result (λ t. t ≡ line_of (refusals.NotInProfile fault)) }
{
    Ok(Text::from(format!(in alloc; "module: {fault}\n")?))
}

fn not_valid(alloc: Global, fault: ValidFault) -> Result<Text, Memory>
    ensures { IfOk result (λ t. t ≡ line_of (refusals.NotValid fault)) }
{
    Ok(Text::from(format!(in alloc; "module: {fault}\n")?))
}

fn bad_tag(alloc: Global, name: &Text) -> Result<Text, Memory>
    ensures { IfOk result (λ t. t ≡ line_of (refusals.BadTag name.now)) }
{
    Ok(Text::from(format!(in alloc; "pack: bad tag {name}\n")?))
}

// What the files of a folder say that is no pack.
fn fault_said(alloc: Global, fault: &GetFault) -> Result<Text, Memory>
    ensures { IfOk result (λ t. t ≡ fault_text fault.now) }
{
    match fault {
        GetFault::NoMeta => Text::new(alloc, "no pack.mcmeta"),
        GetFault::BadIndex => Text::new(alloc, "bad index"),
        GetFault::BadTag { name } => Ok(Text::from(format!(in alloc; "bad tag {name}")?)),
        GetFault::TooMany { .. } => Text::new(alloc, "too many files"),
        GetFault::BadLine { name, line } => {
            Ok(Text::from(format!(in alloc; "bad line {name}:{line}")?))
        }
        GetFault::ListFailed { .. }
        | GetFault::Failed { .. }
        | GetFault::TooLong { .. }
        | GetFault::Memory => Text::new(alloc, ""),
    }
}

fn no_pack_at(alloc: Global, path: &Text, fault: &GetFault) -> Result<Text, Memory>
    ensures { IfOk result (λ t. t ≡ line_of (refusals.NoPackAt path.now fault.now)) }
{
    let said = fault_said(alloc, fault)?;
    Ok(Text::from(format!(in alloc; "{path}: {said}\n")?))
}

fn same_space(alloc: Global, place: usize) -> Result<Text, Memory>
    ensures { IfOk result (λ t. t ≡ line_of (refusals.SameSpace place)) }
{
    Ok(Text::from(format!(in alloc; "multi: same namespace {place}\n")?))
}

fn untidy(alloc: Global, path: &Text, name: &Text, line: usize) -> Result<Text, Memory>
    ensures { IfOk result (λ t. t ≡ line_of (refusals.Untidy path.now name.now line)) }
{
    Ok(Text::from(format!(in alloc; "multi: untidy line {name}:{line} in {path}\n")?))
}

fn not_empty(alloc: Global, name: &Text) -> Result<Text, Memory>
    ensures { IfOk result (λ t. t ≡ line_of (refusals.NotEmpty name.now)) }
{
    Ok(Text::from(format!(in alloc; "folder not empty: {name}\n")?))
}

fn bad_line(alloc: Global, name: &Text, line: u64) -> Result<Text, Memory>
    ensures { IfOk result (λ t. t ≡ line_of (refusals.BadLine name.now line)) }
{
    Ok(Text::from(format!(in alloc; "pack: bad line {name}:{line}\n")?))
}

fn too_long(alloc: Global, path: &Text, cap: u64) -> Result<Text, Memory>
    ensures { IfOk result (λ t. t ≡ line_of (refusals.TooLong path.now cap)) }
{
    Ok(Text::from(format!(in alloc; "{path} is longer than {cap} bytes\n")?))
}

fn cannot(alloc: Global, act: &str, path: &Text) -> Result<Text, Memory>
    ensures { IfOk result (λ t. t ≡ codes "cannot " ++ (act.now ++ (32 ∷ ended_line path.now))) }
{
    Ok(Text::from(format!(in alloc; "cannot {act} {path}\n")?))
}
