//! What the program is asked for by the words of its command line.

ghost use Rattle.std.specs.Prelude.{◌≡◌, ◌<◌, ◌^◌, ◌∷◌, [], ℕ, IfSome, None, codes, decimal, map, string_bytes};
ghost use Rattle.pt_run.specs.Command.{AskFor};

use itoa::Buffer;
use pt_gen::MAX_GENERATED;

/// What the program is to do.
#[derive(Clone, Copy, Debug, PartialEq, Eq)]
pub enum Command {
    /// It runs the script that it reads, and reports it.
    Script,
    /// It runs so many jobs, which this seed gives, and counts what comes of them.
    Generate { jobs: u32, seed: u64 },
}

/// The number that this word writes in decimal, without a sign and without a needless zero.
fn read_decimal(word: &str) -> Option<u64>
    ensures some { IfSome result (λ number. word.now ≡ decimal number) }
    ensures none { result ≡ None → (number : ℕ) → number < 2 ^ 64 → word.now ≡ decimal number → ⊥ }
{
    let Ok(number) = word.parse::<u64>() else {
        return None;
    };
    // `parse` takes signs and zeros too, which `format` does not write.
    if Buffer::new().format(number) == word {
        Some(number)
    } else {
        None
    }
}

/// What these words behind `gen` ask for.
fn generate(jobs: &str, seed: &str) -> Option<Command>
    ensures some { IfSome result (λ command. AskFor (codes "gen" ∷ jobs.now ∷ seed.now ∷ []) command) }
    ensures none { result ≡ None → (command : Command) → AskFor (codes "gen" ∷ jobs.now ∷ seed.now ∷ []) command → ⊥ }
{
    let jobs = read_decimal(jobs)?;
    let seed = read_decimal(seed)?;
    if jobs == 0 || jobs > u64::from(MAX_GENERATED) {
        return None;
    }
    Some(Command::Generate {
        jobs: jobs as u32,
        seed,
    })
}

/// What these words ask for, if that is anything that the program does.
pub(crate) fn command_of(words: &[String]) -> Option<Command>
    ensures some { IfSome result (λ command. AskFor (map string_bytes words.now) command) }
    ensures none { result ≡ None → (command : Command) → AskFor (map string_bytes words.now) command → ⊥ }
{
    match words {
        [word] => {
            if word.as_str() == "script" {
                Some(Command::Script)
            } else {
                None
            }
        }
        [word, jobs, seed] => {
            if word.as_str() == "gen" {
                generate(jobs.as_str(), seed.as_str())
            } else {
                None
            }
        }
        _ => None,
    }
}
