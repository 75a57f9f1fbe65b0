//! Numbers of entities, given and released.
use ad_base::{Memory, Word};
use ad_signature::{SymbolRefused, Symbols};
use ad_tree::{Entity, EntityKind, Naming};
use std::alloc::Global;
use std::hash::RandomState;
use std::test::Fail;

// One step: `+` enters the entity behind it, `-` releases it, `?` asks for its number, and `#` for how many there are. An
// entity is `c` or `i`, a class or an individual, with a letter for its name.
type Step = &'static str;

// The answer of a step where there is no number, and where there is no room for one.
const NONE: u32 = 100;

const FULL: u32 = 200;

const NO_MEMORY: u32 = 300;

// What the step is about.
fn entity_of(alloc: Global, step: Step) -> Result<Entity, Memory> {
    let kind = if step.contains('i') {
        EntityKind::NamedIndividual
    } else {
        EntityKind::Class
    };
    Ok(Entity {
        kind,
        name: Word::of(alloc, step.trim_start_matches(['+', '-', '?']))?,
    })
}

// The answer of one step on this entity.
fn answer_on(alloc: Global, symbols: &mut Symbols, step: Step, entity: &Entity) -> u32 {
    if step.starts_with('+') {
        return match symbols.enter(alloc, entity) {
            Ok(number) => number,
            Err(SymbolRefused::Full { count }) => count.saturating_add(FULL),
            Err(SymbolRefused::Memory) => NO_MEMORY,
        };
    }
    let found = if step.starts_with('-') {
        symbols.release(entity)
    } else {
        symbols.number(entity.kind, &entity.name)
    };
    found.unwrap_or(NONE)
}

// Whether the steps are answered so, one after the other.
fn answers(alloc: Global, symbols: &mut Symbols, steps: &[(Step, u32)]) -> Result<bool, Memory> {
    for (step, wanted) in steps {
        let answer = if *step == "#" {
            symbols.len()
        } else {
            answer_on(alloc, symbols, *step, &entity_of(alloc, *step)?)
        };
        if answer != *wanted {
            return Ok(false);
        }
    }
    Ok(true)
}

// An entity keeps its number. With one number there is no room for another entity, until the one is released.
#[test]
fn one_number(rt: HostRuntime) -> Result<(), Fail> {
    let keys = RandomState::new(&rt)?;
    let mut symbols = Symbols::new(rt.alloc(), keys, 1)?;
    let steps = [
        ("+cA", 0),
        ("+cA", 0),
        ("+cB", 201),
        ("-cA", 0),
        ("+cB", 0),
        ("?cA", NONE),
    ];
    assert!(rt; matches!(answers(rt.alloc(), &mut symbols, &steps), Ok(true)));
    Ok(())
}

// Classes and individuals of one name are two entities. What isn't there can't be released.
#[test]
fn three_numbers(rt: HostRuntime) -> Result<(), Fail> {
    let keys = RandomState::new(&rt)?;
    let mut symbols = Symbols::new(rt.alloc(), keys, 3)?;
    let steps = [
        ("+cA", 0),
        ("+iA", 1),
        ("#", 2),
        ("-cA", 0),
        ("#", 1),
        ("-cA", NONE),
        ("#", 1),
        ("?cA", NONE),
        ("?iA", 1),
    ];
    assert!(rt; matches!(answers(rt.alloc(), &mut symbols, &steps), Ok(true)));
    Ok(())
}

// A copy stays as it is where an entity of the first is released.
#[test]
fn copies(rt: HostRuntime) -> Result<(), Fail> {
    let keys = RandomState::new(&rt)?;
    let mut symbols = Symbols::new(rt.alloc(), keys, 3)?;
    assert!(rt;
        matches!(
            answers(rt.alloc(), &mut symbols, &[("+cA", 0), ("+cB", 1)]),
            Ok(true)
        )
    );
    let mut copy = symbols.copy(rt.alloc())?;
    assert!(rt;
        matches!(
            answers(rt.alloc(), &mut symbols, &[("-cA", 0), ("?cB", 1)]),
            Ok(true)
        )
    );
    let kept = [("?cA", 0), ("?cB", 1), ("?cC", NONE)];
    assert!(rt; matches!(answers(rt.alloc(), &mut copy, &kept), Ok(true)));
    Ok(())
}
