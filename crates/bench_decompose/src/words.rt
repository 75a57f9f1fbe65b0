use ad_base::number;
use anyhow::anyhow;
use bench_classes::Hierarchy;
use std::env::Args;

// How far to go.
#[derive(Clone, Copy)]
pub(crate) enum Part {
    Universe,
    Rows,
    Atoms,
    Copies,
}

// What to do.
#[derive(Clone, Copy)]
pub(crate) struct Work {
    pub(crate) hierarchy: Hierarchy,
    pub(crate) count: u32,
    pub(crate) part: Part,
}

fn hierarchy_of(word: &str) -> Option<Hierarchy> {
    match word {
        "tree" => Some(Hierarchy::Tree),
        "chain" => Some(Hierarchy::Chain),
        _ => None,
    }
}

fn count_of(word: &str) -> Option<u32> {
    u32::try_from(number(word.as_bytes())?).ok()
}

fn part_of(word: &str) -> Option<Part> {
    match word {
        "universe" => Some(Part::Universe),
        "rows" => Some(Part::Rows),
        "atoms" => Some(Part::Atoms),
        "copies" => Some(Part::Copies),
        _ => None,
    }
}

fn next_hierarchy(words: &mut Args) -> anyhow::Result<Hierarchy> {
    let word = words.next().ok_or(anyhow!("no hierarchy"))?;
    hierarchy_of(word.as_str()).ok_or(anyhow!("no such hierarchy"))
}

fn next_count(words: &mut Args) -> anyhow::Result<u32> {
    let word = words.next().ok_or(anyhow!("no count"))?;
    count_of(word.as_str()).ok_or(anyhow!("no such count"))
}

fn next_part(words: &mut Args) -> anyhow::Result<Part> {
    let word = words.next().ok_or(anyhow!("no part"))?;
    part_of(word.as_str()).ok_or(anyhow!("no such part"))
}

// What the program's arguments ask for.
pub(crate) fn asked(mut words: Args) -> anyhow::Result<Work> {
    let _program = words.next();
    let hierarchy = next_hierarchy(&mut words)?;
    let count = next_count(&mut words)?;
    let part = next_part(&mut words)?;
    Ok(Work {
        hierarchy,
        count,
        part,
    })
}
