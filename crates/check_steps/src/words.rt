//! The words of the command line.

ghost use Rattle.std.specs.Prelude.{◌≡◌, ◌≢◌, ◌⊎◌, ℕ, [], ◌↔◌, IsTrue, List, map, IfSome, IfNone, string_bytes};
ghost use Rattle.check_steps.specs.Asks.{Ask, convert_request, flatten_request, match_request, make_request};
ghost use Rattle.check_steps.specs.Asks.{restore_request, sweep_request, trim_request};
ghost use Rattle.check_steps.specs.Words.{AreBudgetAndSeed, AreFourNames, AreNames, AreTwoNames, AskNothing, AsksCheck};
ghost use Rattle.check_steps.specs.Words.{AsksConvert, AsksFlatten, AsksInfo, AsksMake, AsksMatch, AsksRestore};
ghost use Rattle.check_steps.specs.Words.{AsksSweep, AsksTrial, AsksTrim};
ghost use Rattle.check_steps.specs.Words.{ConvertRequest, FlattenRequest, MatchRequest, MakeRequest, RestoreRequest};
ghost use Rattle.check_steps.specs.Words.{SweepRequest, TrimRequest};
ghost use Rattle.check_steps.specs.Words.{IsNumber};

use text_core::{Cursor, decimal};

/// The budget of `match` and `info` where the words give none, and of `trial`. At some 25,000 clauses a second it is
/// learned in half a day, so that a run that nobody waits for ends.
pub const DEFAULT_BUDGET: u64 = 1_000_000_000;

/// The allowance of `sweep` where the words give none. At some 25,000 clauses a second it is learned in under a minute, so
/// that a netlist whose signals are hard to compare is written soon, with fewer of them compared.
pub const DEFAULT_ALLOWANCE: u64 = 1_000_000;

/// The seed of `match` where the words give none, and of `trial`. Any number serves: a run is to be the same each time.
pub const DEFAULT_SEED: u64 = 1;

/// The most digits that a number on the command line has: as many as 2^64 has.
pub const MOST_DIGITS: usize = 20;

/// The files that a check names.
#[derive(Clone, Copy, Debug)]
pub struct Check<'a> {
    /// The first netlist.
    pub first: &'a str,
    /// The second netlist.
    pub second: &'a str,
    /// The account: that a matching is a match, or that none is, and the proof.
    pub account: &'a str,
}

/// The files of a netlist that gets another one's ports.
#[derive(Clone, Copy, Debug)]
pub struct Restore<'a> {
    /// The first netlist, whose ports and names it gets.
    pub first: &'a str,
    /// The second netlist, whose gates it has.
    pub second: &'a str,
    /// The account: that a matching is a match of the two, and the proof.
    pub account: &'a str,
    /// The file that is written.
    pub restored: &'a str,
}

/// The files of an account that is trimmed.
#[derive(Clone, Copy, Debug)]
pub struct Trim<'a> {
    /// The first netlist.
    pub first: &'a str,
    /// The second netlist.
    pub second: &'a str,
    /// The account: that a matching is a match, or that none is, and the proof.
    pub account: &'a str,
    /// The file that is written.
    pub trimmed: &'a str,
}

/// The files of an account that is converted.
#[derive(Clone, Copy, Debug)]
pub struct Convert<'a> {
    /// The account.
    pub account: &'a str,
    /// The file that is written.
    pub converted: &'a str,
}

/// The files of a netlist of several models that is flattened.
#[derive(Clone, Copy, Debug)]
pub struct Flatten<'a> {
    /// The file of models.
    pub file: &'a str,
    /// The file that is written.
    pub flat: &'a str,
}

/// The files of a netlist that is swept.
#[derive(Clone, Copy, Debug)]
pub struct Sweep<'a> {
    /// The netlist.
    pub file: &'a str,
    /// The file that is written.
    pub swept: &'a str,
    /// How many clauses may be learned.
    pub allowance: u64,
}

/// The netlists of which a match is sought.
#[derive(Clone, Copy, Debug)]
pub struct Match<'a> {
    /// The first netlist.
    pub first: &'a str,
    /// The second netlist.
    pub second: &'a str,
    /// The account that is written: the proof of the answer.
    pub account: &'a str,
    /// How many clauses may be learned.
    pub budget: u64,
    /// The number that the vectors are drawn from.
    pub seed: u64,
}

/// The file of which is asked what is known.
#[derive(Clone, Copy, Debug)]
pub struct Info<'a> {
    /// The netlist.
    pub file: &'a str,
    /// How many clauses may be learned.
    pub budget: u64,
}

/// The pair that is made.
#[derive(Clone, Copy, Debug)]
pub struct Make<'a> {
    /// The number that gives the pair.
    pub number: u64,
    /// The file of the first netlist.
    pub first: &'a str,
    /// The file of the second netlist.
    pub second: &'a str,
}

/// The pair that is tried.
#[derive(Clone, Copy, Debug)]
pub struct Trial {
    /// The number that gives the pair.
    pub number: u64,
}

/// What the words ask for.
#[derive(Clone, Copy, Debug)]
pub enum Command<'a> {
    /// Whether an account proves that two netlists match.
    Check(Check<'a>),
    /// The second of two netlists with the first one's ports, by an account of a match.
    Restore(Restore<'a>),
    /// The account of two netlists without what its conclusion doesn't rest on.
    Trim(Trim<'a>),
    /// An account in the other version.
    Convert(Convert<'a>),
    /// A file of several models as one flat netlist.
    Flatten(Flatten<'a>),
    /// A netlist with one signal in place of all that compute the same.
    Sweep(Sweep<'a>),
    /// A match of two netlists, or that there is none.
    Match(Match<'a>),
    /// What each output of a netlist depends on, and how.
    Info(Info<'a>),
    /// The pair of netlists that a number gives, in two files.
    Make(Make<'a>),
    /// Whether a match is found of the pair that a number gives, and its account accepted.
    Trial(Trial),
}

/// What the words ask for, if they are of a form that is known.
pub fn command_asked(words: &[String]) -> Option<Command<'_>>
    ensures asked { IfSome result (Ask (map string_bytes words.now)) }
    ensures not_asked { IfNone result (AskNothing (map string_bytes words.now)) }
{
    if let Some(check) = check_asked(words) {
        return Some(Command::Check(check));
    }
    if let Some(asked) = restore_asked(words) {
        return Some(Command::Restore(asked));
    }
    if let Some(asked) = trim_asked(words) {
        return Some(Command::Trim(asked));
    }
    if let Some(asked) = convert_asked(words) {
        return Some(Command::Convert(asked));
    }
    if let Some(asked) = flatten_asked(words) {
        return Some(Command::Flatten(asked));
    }
    if let Some(asked) = sweep_asked(words) {
        return Some(Command::Sweep(asked));
    }
    if let Some(asked) = match_asked(words) {
        return Some(Command::Match(asked));
    }
    if let Some(info) = info_asked(words) {
        return Some(Command::Info(info));
    }
    match make_asked(words) {
        Some(asked) => Some(Command::Make(asked)),
        None => Some(Command::Trial(trial_asked(words)?)),
    }
}

/// The check that the words ask for: `check`, and three names that aren't empty.
fn check_asked(words: &[String]) -> Option<Check<'_>>
    ensures asked { IfSome result
        (λ check. AsksCheck (map string_bytes words.now) check.first.now check.second.now check.account.now) }
    ensures not_asked { IfNone result
        ((first second account : List ℕ) → AsksCheck (map string_bytes words.now) first second account → ⊥) }
{
    match words {
        [command, first, second, account] if command.as_str() == "check" => {
            let first = first.as_str();
            let second = second.as_str();
            let account = account.as_str();
            if first.is_empty() || second.is_empty() || account.is_empty() {
                return None;
            }
            Some(Check {
                first,
                second,
                account,
            })
        }
        _ => None,
    }
}

/// What the words ask to restore: `restore`, and four names that aren't empty, the last of which is none of the others.
fn restore_asked(words: &[String]) -> Option<Restore<'_>>
    ensures asked { IfSome result (λ asked. AsksRestore (map string_bytes words.now) (restore_request asked)) }
    ensures not_asked { IfNone result
        ((request : RestoreRequest) → AsksRestore (map string_bytes words.now) request → ⊥) }
{
    match words {
        [command, first, second, account, restored] if command.as_str() == "restore" => restore_of(
            first.as_str(),
            second.as_str(),
            account.as_str(),
            restored.as_str(),
        ),
        _ => None,
    }
}

/// What four names ask to restore.
fn restore_of<'a>(
    first: &'a str,
    second: &'a str,
    account: &'a str,
    restored: &'a str,
) -> Option<Restore<'a>>
    ensures some { IfSome result (λ asked. (asked.first.now ≡ first.now)
        × (asked.second.now ≡ second.now)
        × (asked.account.now ≡ account.now)
        × (asked.restored.now ≡ restored.now)) }
    ensures apart { IfSome result (λ asked. AreFourNames first.now second.now account.now restored.now) }
    ensures none { IfNone result (AreFourNames first.now second.now account.now restored.now → ⊥) }
{
    if !are_four_names(first, second, account, restored) {
        return None;
    }
    Some(Restore {
        first,
        second,
        account,
        restored,
    })
}

/// What the words ask to trim: `trim`, and four names that aren't empty, the last of which is none of the others.
fn trim_asked(words: &[String]) -> Option<Trim<'_>>
    ensures asked { IfSome result (λ asked. AsksTrim (map string_bytes words.now) (trim_request asked)) }
    ensures not_asked { IfNone result ((request : TrimRequest) → AsksTrim (map string_bytes words.now) request → ⊥) }
{
    match words {
        [command, first, second, account, trimmed] if command.as_str() == "trim" => trim_of(
            first.as_str(),
            second.as_str(),
            account.as_str(),
            trimmed.as_str(),
        ),
        _ => None,
    }
}

/// What four names ask to trim.
fn trim_of<'a>(
    first: &'a str,
    second: &'a str,
    account: &'a str,
    trimmed: &'a str,
) -> Option<Trim<'a>>
    ensures some { IfSome result (λ asked. (asked.first.now ≡ first.now)
        × (asked.second.now ≡ second.now)
        × (asked.account.now ≡ account.now)
        × (asked.trimmed.now ≡ trimmed.now)) }
    ensures apart { IfSome result (λ asked. AreFourNames first.now second.now account.now trimmed.now) }
    ensures none { IfNone result (AreFourNames first.now second.now account.now trimmed.now → ⊥) }
{
    if !are_four_names(first, second, account, trimmed) {
        return None;
    }
    Some(Trim {
        first,
        second,
        account,
        trimmed,
    })
}

/// What the words ask to convert: `convert`, and two names that aren't empty and differ.
fn convert_asked(words: &[String]) -> Option<Convert<'_>>
    ensures asked { IfSome result (λ asked. AsksConvert (map string_bytes words.now) (convert_request asked)) }
    ensures not_asked { IfNone result
        ((request : ConvertRequest) → AsksConvert (map string_bytes words.now) request → ⊥) }
{
    match words {
        [command, account, converted] if command.as_str() == "convert" => {
            convert_of(account.as_str(), converted.as_str())
        }
        _ => None,
    }
}

/// What two names ask to convert.
fn convert_of<'a>(account: &'a str, converted: &'a str) -> Option<Convert<'a>>
    ensures some { IfSome result (λ asked. (asked.account.now ≡ account.now) × (asked.converted.now ≡ converted.now)) }
    ensures apart { IfSome result (λ asked. AreTwoNames account.now converted.now) }
    ensures none { IfNone result (AreTwoNames account.now converted.now → ⊥) }
{
    if !are_two_names(account, converted) {
        return None;
    }
    Some(Convert { account, converted })
}

/// What the words ask to flatten: `flatten`, and two names that aren't empty and differ.
fn flatten_asked(words: &[String]) -> Option<Flatten<'_>>
    ensures asked { IfSome result (λ asked. AsksFlatten (map string_bytes words.now) (flatten_request asked)) }
    ensures not_asked { IfNone result
        ((request : FlattenRequest) → AsksFlatten (map string_bytes words.now) request → ⊥) }
{
    match words {
        [command, file, flat] if command.as_str() == "flatten" => {
            flatten_of(file.as_str(), flat.as_str())
        }
        _ => None,
    }
}

/// What two names ask to flatten.
fn flatten_of<'a>(file: &'a str, flat: &'a str) -> Option<Flatten<'a>>
    ensures some { IfSome result (λ asked. (asked.file.now ≡ file.now) × (asked.flat.now ≡ flat.now)) }
    ensures apart { IfSome result (λ asked. AreTwoNames file.now flat.now) }
    ensures none { IfNone result (AreTwoNames file.now flat.now → ⊥) }
{
    if !are_two_names(file, flat) {
        return None;
    }
    Some(Flatten { file, flat })
}

/// What the words ask to sweep: `sweep`, two names that aren't empty and differ, and perhaps a number.
fn sweep_asked(words: &[String]) -> Option<Sweep<'_>>
    ensures asked { IfSome result (λ asked. AsksSweep (map string_bytes words.now) (sweep_request asked)) }
    ensures not_asked { IfNone result
        ((request : SweepRequest) → AsksSweep (map string_bytes words.now) request → ⊥) }
{
    match words {
        [command, file, swept] if command.as_str() == "sweep" => {
            sweep_of(file.as_str(), swept.as_str(), DEFAULT_ALLOWANCE)
        }
        [command, file, swept, allowance] if command.as_str() == "sweep" => sweep_of(
            file.as_str(),
            swept.as_str(),
            number_of(allowance.as_str())?,
        ),
        _ => None,
    }
}

/// What two names ask to sweep, within an allowance.
fn sweep_of<'a>(file: &'a str, swept: &'a str, allowance: u64) -> Option<Sweep<'a>>
    ensures some { IfSome result (λ asked. (asked.file.now ≡ file.now)
        × (asked.swept.now ≡ swept.now)
        × (asked.allowance ≡ allowance)) }
    ensures apart { IfSome result (λ asked. AreTwoNames file.now swept.now) }
    ensures none { IfNone result (AreTwoNames file.now swept.now → ⊥) }
{
    if !are_two_names(file, swept) {
        return None;
    }
    Some(Sweep {
        file,
        swept,
        allowance,
    })
}

/// Whether four names aren't empty, and the last one is none of the others.
fn are_four_names(first: &str, second: &str, account: &str, restored: &str) -> bool
    ensures { IsTrue result ↔ AreFourNames first.now second.now account.now restored.now }
{
    are_names(first, second, restored) & are_two_names(account, restored)
}

/// The match that the words ask for: `match`, three names, and perhaps a budget, and after it perhaps a seed.
fn match_asked(words: &[String]) -> Option<Match<'_>>
    ensures asked { IfSome result (λ asked. AsksMatch (map string_bytes words.now) (match_request asked)) }
    ensures not_asked { IfNone result
        ((sought : MatchRequest) → AsksMatch (map string_bytes words.now) sought → ⊥) }
{
    match words {
        [command, first, second, account, numbers @ ..] if command.as_str() == "match" => {
            match_of(first.as_str(), second.as_str(), account.as_str(), numbers)
        }
        _ => None,
    }
}

/// The match that three names and the words after them ask for.
fn match_of<'a>(
    first: &'a str,
    second: &'a str,
    account: &'a str,
    numbers: &[String],
) -> Option<Match<'a>>
    ensures names { IfSome result (λ asked. (asked.first.now ≡ first.now)
        × (asked.second.now ≡ second.now)
        × (asked.account.now ≡ account.now)) }
    ensures apart { IfSome result (λ asked. AreNames first.now second.now account.now) }
    ensures numbers { IfSome result (λ asked. AreBudgetAndSeed (map string_bytes numbers.now) asked.budget asked.seed) }
    ensures none { IfNone result ((budget seed : ℕ)
        → AreNames first.now second.now account.now
        → AreBudgetAndSeed (map string_bytes numbers.now) budget seed
        → ⊥) }
{
    if !are_names(first, second, account) {
        return None;
    }
    let (budget, seed) = budget_and_seed(numbers)?;
    Some(Match {
        first,
        second,
        account,
        budget,
        seed,
    })
}

/// Whether three names aren't empty, and the last one is neither of the others.
fn are_names(first: &str, second: &str, account: &str) -> bool
    ensures { IsTrue result ↔ AreNames first.now second.now account.now }
{
    !(first.is_empty()
        | second.is_empty()
        | account.is_empty()
        | (account == first)
        | (account == second))
}

/// A budget and a seed, as the words give them, or the default ones.
fn budget_and_seed(words: &[String]) -> Option<(u64, u64)>
    ensures some { IfSome result (λ numbers. AreBudgetAndSeed (map string_bytes words.now) numbers.0 numbers.1) }
    ensures none { IfNone result ((budget seed : ℕ)
        → AreBudgetAndSeed (map string_bytes words.now) budget seed → ⊥) }
{
    match words {
        [] => Some((DEFAULT_BUDGET, DEFAULT_SEED)),
        [budget] => Some((number_of(budget.as_str())?, DEFAULT_SEED)),
        [budget, seed] => Some((number_of(budget.as_str())?, number_of(seed.as_str())?)),
        _ => None,
    }
}

/// What the words ask of one netlist: `info`, a name that isn't empty, and perhaps a number.
fn info_asked(words: &[String]) -> Option<Info<'_>>
    ensures asked { IfSome result (λ info. AsksInfo (map string_bytes words.now) info.file.now info.budget) }
    ensures not_asked { IfNone result
        ((file : List ℕ) (budget : ℕ) → AsksInfo (map string_bytes words.now) file budget → ⊥) }
{
    match words {
        [command, file] if command.as_str() == "info" => info_of(file.as_str(), DEFAULT_BUDGET),
        [command, file, budget] if command.as_str() == "info" => {
            info_of(file.as_str(), number_of(budget.as_str())?)
        }
        _ => None,
    }
}

/// The question about the file of a name that isn't empty.
fn info_of(file: &str, budget: u64) -> Option<Info<'_>>
    ensures some { IfSome result (λ info. (info.file.now ≡ file.now) × (info.budget ≡ budget) × (file.now ≢ [])) }
    ensures none { IfNone result (file.now ≡ []) }
{
    if file.is_empty() {
        return None;
    }
    Some(Info { file, budget })
}

/// The pair that the words ask for: `make`, a number, and two names that aren't empty and differ.
fn make_asked(words: &[String]) -> Option<Make<'_>>
    ensures asked { IfSome result (λ made. AsksMake (map string_bytes words.now) (make_request made)) }
    ensures not_asked { IfNone result ((request : MakeRequest) → AsksMake (map string_bytes words.now) request → ⊥) }
{
    match words {
        [command, number, first, second] if command.as_str() == "make" => {
            make_of(number_of(number.as_str())?, first.as_str(), second.as_str())
        }
        _ => None,
    }
}

/// The pair of a number, in files of two names.
fn make_of<'a>(number: u64, first: &'a str, second: &'a str) -> Option<Make<'a>>
    ensures some { IfSome result (λ made. (made.number ≡ number)
        × (made.first.now ≡ first.now)
        × (made.second.now ≡ second.now)) }
    ensures apart { IfSome result (λ made. AreTwoNames first.now second.now) }
    ensures none { IfNone result (AreTwoNames first.now second.now → ⊥) }
{
    if !are_two_names(first, second) {
        return None;
    }
    Some(Make {
        number,
        first,
        second,
    })
}

/// Whether two names aren't empty, and differ.
fn are_two_names(first: &str, second: &str) -> bool
    ensures { IsTrue result ↔ AreTwoNames first.now second.now }
{
    !(first.is_empty() | second.is_empty() | (second == first))
}

/// The trial that the words ask for: `trial`, and a number.
fn trial_asked(words: &[String]) -> Option<Trial>
    ensures asked { IfSome result (λ trial. AsksTrial (map string_bytes words.now) trial.number) }
    ensures not_asked { IfNone result ((number : ℕ) → AsksTrial (map string_bytes words.now) number → ⊥) }
{
    match words {
        [command, number] if command.as_str() == "trial" => Some(Trial {
            number: number_of(number.as_str())?,
        }),
        _ => None,
    }
}

/// The number of 64 bits that a word of 1 to 20 digits writes.
fn number_of(word: &str) -> Option<u64>
    ensures some { IfSome result (IsNumber word.now) }
    ensures none { IfNone result ((value : ℕ) → IsNumber word.now value → ⊥) }
{
    if word.len() > MOST_DIGITS {
        return None;
    }
    let digits = Cursor::new(word.as_bytes()).take(word.len())?;
    decimal(digits).ok()
}
