ghost use Rattle.std.specs.Prelude.{◌≡◌, IfOk, map};
ghost use Rattle.std.specs.List.Sorted.{IsStrictlyIncreasing};

use merge_plan::{Size, plan};
use std::alloc::Global;
use std::test::Fail;

// A row each: the live documents of generation 1, 2 and so on and all documents of each, a star
// where a merge holds it, and what is merged.
const ROWS: &str = "\
=> None
1/1 1/1 1/1 1/1 1/1 1/1 1/1 1/1 1/1 1/1 1/1 1/1 => Some([1, 2, 3, 4, 5, 6, 7, 8, 9, 10])
4/10 9/9 => Some([1])
9/9 => None
*1/1 1/1 1/1 1/1 1/1 1/1 1/1 1/1 1/1 1/1 1/1 => Some([2, 3, 4, 5, 6, 7, 8, 9, 10, 11])
*1/1 1/1 1/1 1/1 1/1 1/1 1/1 1/1 1/1 1/1 => None
*4/10 5/10 4/9 => Some([3])";

fn size_of(word: &str, generation: u32) -> Result<Size, Fail>
    ensures { IfOk result (λ size. size.generation ≡ generation) }
{
    let held = word.starts_with('*');
    let counts = word.trim_start_matches('*');
    let (live, documents) = counts.split_once('/').ok_or("no documents")?;
    let live = live.parse::<u32>()?;
    let documents = documents.parse::<u32>()?;
    Ok(Size {
        generation,
        documents,
        live,
        paths: documents,
        held,
    })
}

fn sizes_of(alloc: Global, spelled: &str) -> Result<Vec<Size>, Fail>
    ensures { IfOk result (λ sizes.
        IsStrictlyIncreasing (map (λ s. s.generation) sizes.items)) }
{
    let mut sizes = Vec::new(alloc);
    let mut last = 0u32;
    for word in spelled.split_whitespace() {
        if last == 100 {
            return Err("too many".into());
        }
        let generation = last + 1;
        let size = size_of(word, generation)?;
        sizes.push(size)?;
        last = generation;
    }
    Ok(sizes)
}

fn planned(alloc: Global, sizes: &[Size]) -> Result<String, Fail>
    requires { IsStrictlyIncreasing (map (λ s. s.generation) sizes.now) }
{
    let found = plan(alloc, sizes)?;
    let told = format!(in alloc; "{found:?}")?;
    Ok(told)
}

#[test]
fn ten_of_a_level_are_merged_or_one_that_is_mostly_deleted(rt: HostRuntime) -> Result<(), Fail> {
    for row in ROWS.lines() {
        let (spelled, wanted) = row.split_once("=> ").ok_or("no answer")?;
        let sizes = sizes_of(rt.alloc(), spelled)?;
        let told = planned(rt.alloc(), sizes.as_slice())?;
        assert_eq!(rt; told.as_str(), wanted, "{row}");
    }
    Ok(())
}
