//! Finds the module of the signature of every axiom in a tree of classes, and prints how many axioms these modules have
//! in all. The words are the number of axioms, and then the kinds of module.
#![tactic(auto)]

ghost use Rattle.std.specs.Prelude.{◌≤◌, IfSome};

use crate::tree::class_tree;
use ad_base::{Kind, Limits, number};
use anyhow::anyhow;
use std::env;
use std::hash::RandomState;

mod extraction;
mod tree;

fn kind_of(word: &str) -> Option<Kind> {
    match word {
        "bottom" => Some(Kind::Bottom),
        "top" => Some(Kind::Top),
        "star" => Some(Kind::Star),
        _ => None,
    }
}

// The count that the word spells, where there may be so many axioms.
fn count_of(word: &str, most: u32) -> Option<u32>
    ensures { IfSome result (λ count. count ≤ most) }
{
    let count = number(word.as_bytes())?;
    if count <= u64::from(most) {
        Some(count as u32)
    } else {
        None
    }
}

fn main(rt: HostRuntime) -> anyhow::Result<()> {
    let alloc = rt.alloc();
    let limits = Limits::standard();
    let mut words = env::args(&rt)?;
    let _program = words.next();
    let first = words.next().ok_or(anyhow!("no count"))?;
    let Some(count) = count_of(first.as_str(), limits.axioms) else {
        return Err(anyhow!("no such count"));
    };
    let universe = class_tree(alloc, RandomState::new(&rt)?, &limits, count)?;
    for word in words {
        let Some(kind) = kind_of(word.as_str()) else {
            return Err(anyhow!("no such kind"));
        };
        let sum = extraction::sizes(alloc, &universe, &limits, kind, count)?;
        println!(rt; "{} {sum}", word.as_str())?;
    }
    Ok(())
}
