// What the timing programs share: their two arguments, the least time of several runs, and how a time is shared among items.
#![tactic(auto)]

ghost use Rattle.std.specs.Prelude.{◌≡◌, ◌*◌, ◌/◌, ◌<◌, ◌≤◌, ◌↔◌, map, string_bytes, IfOk, IsSome};
ghost use Rattle.std.specs.Duration.{as_nanos};
ghost use Rattle.std.specs.List.{FoldsTo, range_with_len};
ghost use Rattle.timing.specs.Words.{NumberOr, LastNumber, SayTrials};

use std::alloc::Allocator;
use std::rt::Env;
use std::time::{Clock, Duration, Instant};
use std::{env, io};

// How many items a trial has, and how often a program repeats it.
#[derive(Clone, Copy, PartialEq, Eq, Debug)]
pub struct Trials {
    pub items: u32,
    pub repeats: u64,
}

// The number that a word is, where it is at most so much; or another.
fn number_or(word: &str, most: u64, other: u64) -> u64
    ensures { NumberOr most other word.now result }
{
    match word.parse() {
        Ok(number) if number <= most => number,
        _ => other,
    }
}

// The last of the words that is a number, or 0.
fn last_number<A: Allocator>(words: &[String<A>], most: u64) -> u64
    ensures { LastNumber most (map string_bytes words.now) result }
{
    let mut last = 0;
    for word in words {
        last = number_or(word.as_str(), most, last);
    }
    last
}

// What the words say that a program was called with. None stand for a small trial and no timing.
pub fn trials_of<A: Allocator>(words: &[String<A>], most_repeats: u64) -> Trials
    ensures said { SayTrials most_repeats (map string_bytes words.now) result }
    ensures bounded { result.items ≤ 100000000 }
{
    let Some((first, others)) = words.split_first() else {
        return Trials {
            items: 1000,
            repeats: 0,
        };
    };
    let items = number_or(first.as_str(), u64::from(u32::MAX), 1000);
    Trials {
        items: items.min(100_000_000) as u32,
        repeats: last_number(others, most_repeats),
    }
}

// The same of the words that this program was called with.
pub fn arguments(rt: &(impl Env + Alloc), most_repeats: u64) -> io::Result<Trials>
    ensures { IfOk result (λ trials. trials.items ≤ 100000000) }
{
    let words: Vec<_, _> = env::args(rt)?.skip(1).collect(rt.alloc())?;
    Ok(trials_of(words.as_slice(), most_repeats))
}

// The least time that a run took, of so many; each is told how many there were before it. That it is the least, no clause
// says: what a clock answers has no name there.
pub fn least_time<F: FnMut(u64)>(
    clock: &impl Clock,
    repeats: u64,
    mut run: F,
) -> io::Result<Option<Duration>>
    requires { F.IsAlwaysCallable run }
    ensures least { IfOk result (λ least. IsSome least ↔ (0 < repeats)) }
    ensures ran { IfOk result (λ _. (last : F) × FoldsTo (λ p k q. F.step p k tt q) run (range_with_len 0 repeats) last) }
{
    let mut least: Option<Duration> = None;
    for before in 0..repeats {
        let start = Instant::now(clock)?;
        run(before);
        let spent = start.elapsed(clock)?;
        least = Some(least.map_or(spent, |least| least.min(spent)));
    }
    Ok(least)
}

// What each item took, in parts of a nanosecond, so many to one; 0 where there are no items.
pub fn share(time: Duration, items: usize, parts: u32) -> u128
    ensures { result ≡ as_nanos time * parts / items }
{
    (time.as_nanos() * u128::from(parts))
        .checked_div(items as u128)
        .unwrap_or(0)
}

#[cfg(test)]
mod tests {
    use super::*;
    use std::test::Fail;

    // Words that are no numbers, or too large, say nothing; of several repeats the last counts.
    #[test]
    fn reads_words(rt: HostRuntime) -> Result<(), Fail> {
        let heap = rt.alloc();
        let mut words = Vec::new(heap);
        assert_eq!(rt; trials_of(words.as_slice(), 9).items, 1000);
        for word in ["200000000", "x", "7", "5", "4294967296"] {
            words.push(String::from_str(heap, word)?)?;
        }
        let trials = trials_of(words.as_slice(), u64::from(u32::MAX));
        assert_eq!(rt; trials.items, 100_000_000);
        assert_eq!(rt; trials.repeats, 5);
        assert_eq!(rt;
            trials_of(words.as_slice(), u64::MAX).repeats,
            4_294_967_296
        );
        words.reverse();
        assert_eq!(rt; trials_of(words.as_slice(), 9).items, 1000);
        Ok(())
    }

    // The runner's words are no numbers, or few; each run is told how many there were before it.
    #[test]
    fn succeeds(rt: HostRuntime) -> Result<(), Fail> {
        let _ = arguments(&rt, u64::MAX)?;
        let mut told = 0;
        let least = least_time(&rt, 5, |before| told = before)?;
        assert!(rt; least.is_some());
        assert_eq!(rt; told, 4);
        assert_eq!(rt; least_time(&rt, 0, |before| told = before)?, None);
        Ok(())
    }

    #[test]
    fn shares(rt: HostRuntime) {
        let time = Duration::from_nanos(1239);
        assert_eq!(rt; share(time, 100, 100), 1239);
        assert_eq!(rt; share(time, 100, 10), 123);
        assert_eq!(rt; share(time, 0, 10), 0);
    }
}
