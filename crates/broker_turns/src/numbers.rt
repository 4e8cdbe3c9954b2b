//! Numbers of connections, of links and of peers.
ghost use Rattle.std.specs.Prelude.{◌≡◌, ◌++◌, ◌∷◌, [], ◌||◌, if◌then◌else◌, OnOk, IfOk};
ghost use Rattle.broker_turns.specs.Numbers.{AreThose, is_among};

use std::alloc::AllocError;

/// The same numbers, rising, each once.
pub fn rising(numbers: Vec<usize>) -> Vec<usize>
    ensures { AreThose (is_among numbers.items) result.items }
{
    let mut sorted = numbers;
    sorted.sort_unstable();
    sorted.dedup();
    sorted
}

/// The numbers of either, rising, each once.
pub fn united(numbers: Vec<usize>, others: &[usize]) -> Result<Vec<usize>, AllocError>
    ensures { IfOk result (λ all. AreThose (λ number. is_among numbers.items number || is_among others.now number) all.items) }
{
    let mut all = numbers;
    all.extend_from_slice(others)?;
    Ok(rising(all))
}

/// Notes a number where it is to be noted.
pub fn note_if(numbers: &mut Vec<usize>, number: usize, noted: bool) -> Result<(), AllocError>
    ensures { OnOk result (numbers.new.items ≡ numbers.old.items ++ (if noted then number ∷ [] else [])) }
{
    if noted {
        numbers.push(number)?;
    }
    Ok(())
}
