// Code over any level store, which sees no more of it than the trait's contracts.
#![tactic(auto)]

ghost use Rattle.std.specs.Prelude.{◌≡◌, ◌+◌, ◌*◌, ◌<◌, ◌≤◌, [], ◌∷◌, ◌++◌, length, replicate, IsErr, IfOk, IfErr, OnOk, OnErr, IsTrue, ◌↔◌};
ghost use Rattle.store.specs.declared.refusal.Refusal.TheVariants.{NoRoom};

use store::levels::Levels;
use store::refusal::Refusal;
use store::stores::LevelStore;

// Appends one level, and reads it back.
pub fn append_and_read<S: LevelStore>(store: &mut S, level: i16) -> Result<i16, Refusal>
    ensures read { IfOk result (λ x. x ≡ level) }
    ensures appended { OnOk result ((S.meaning store.new).levels ≡ (S.meaning store.old).levels ++ (level ∷ [])) }
    ensures refused { IfErr result (λ e. (e ≡ NoRoom) × ((S.meaning store.old).most ≤ length (S.meaning store.old).levels)) }
    ensures unchanged { OnErr result (store.new ≡ store.old) }
    ensures ordered { S.in_order store.old → S.in_order store.new }
{
    let place = store.length();
    store.append(level, 1)?;
    store.at(place)
}

// Appends two runs of `count` levels, or neither.
pub fn append_both<S: LevelStore>(
    store: &mut S,
    first: i16,
    second: i16,
    count: u32,
) -> Result<(), Refusal>
    ensures appended { OnOk result ((S.meaning store.new).levels ≡ (S.meaning store.old).levels ++ (replicate count first ++ replicate count second)) }
    ensures refused { IsErr result ↔ ((S.meaning store.old).most < length (S.meaning store.old).levels + 2 * count) }
    ensures refusal { IfErr result (λ e. e ≡ NoRoom) }
    ensures unchanged { OnErr result ((S.meaning store.new).levels ≡ (S.meaning store.old).levels) }
    ensures most { (S.meaning store.new).most ≡ (S.meaning store.old).most }
    ensures ordered { S.in_order store.old → S.in_order store.new }
{
    let before = store.length();
    store.append(first, count)?;
    if let Err(refusal) = store.append(second, count) {
        store.cut_back(before)?;
        return Err(refusal);
    }
    Ok(())
}

// Whether the store holds just the levels of `expected`: one reading in order.
pub fn holds<S: LevelStore>(store: &S, expected: &[i16]) -> bool
    ensures { IsTrue result ↔ ((S.meaning store.now).levels ≡ expected.now) }
{
    store.length() as usize == expected.len()
        && Levels::new(store)
            .zip(expected)
            .all(|(level, other)| level == *other)
}
