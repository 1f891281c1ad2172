use super::*;
use crate::armed::complete_rule;
use crate::in_section::mark_rule;
use crate::plain::{arm_rule, begin_rule};
use crate::{
    ArmedRule, PlainRule, Progress, SectionRule, Swap, Touch, armed_rule, plain_rule, section_rule,
};
use el_base::Cause;

/// What touches the line of an address.
fn touch(address: u32, need: Need) -> Touch {
    Touch {
        line: line_of(address),
        need,
    }
}

/// A request for the line of an address, outside of a section and inside of one.
fn misses(address: u32, need: Need) -> PlainRule {
    PlainRule::Misses {
        line: line_of(address),
        need,
    }
}

fn section_misses(address: u32, need: Need) -> SectionRule {
    SectionRule::Misses {
        line: line_of(address),
        need,
    }
}

/// An instruction that runs and touches the line of an address, outside of a section and inside of one.
fn runs(address: u32, need: Need) -> PlainRule {
    PlainRule::Runs {
        touch: Some(touch(address, need)),
    }
}

fn buffers(address: u32, need: Need) -> SectionRule {
    SectionRule::Buffers {
        touch: Some(touch(address, need)),
    }
}

/// A cache of one line.
fn one(letter: Letter, bit: Option<Need>) -> [Line; 1] {
    [Line {
        address: WORD,
        letter,
        bit,
    }]
}

/// The rule of a swap outside of a section, or nothing where its address is no multiple of 4.
fn swap_rule(harts: &Harts, address: u32, new: u32, may_elide: bool) -> Option<PlainRule> {
    if address % 4 != 0 {
        return None;
    }
    let action = Action::Amo {
        op: AmoOp::Swap,
        rd: X5,
        address,
        source: new,
    };
    Some(plain_rule(&harts.pool, &harts.bus, HART, &action, may_elide))
}

/// The rule of a store of a word, likewise.
fn store_rule(harts: &Harts, address: u32) -> Option<PlainRule> {
    if address % 4 != 0 {
        return None;
    }
    let action = Action::Store {
        address,
        len: 4,
        value: 0,
    };
    Some(plain_rule(&harts.pool, &harts.bus, HART, &action, true))
}

/// The rule of a load of a word, likewise.
fn load_rule(harts: &Harts, address: u32) -> Option<PlainRule> {
    if address % 4 != 0 {
        return None;
    }
    let action = Action::Load {
        width: LoadWidth::Word,
        rd: X5,
        address,
    };
    Some(plain_rule(&harts.pool, &harts.bus, HART, &action, true))
}

/// The rule of an LR, likewise.
fn reserve_rule(harts: &Harts, address: u32, may_elide: bool) -> Option<PlainRule> {
    if address % 4 != 0 {
        return None;
    }
    let action = Action::LoadReserved { rd: X5, address };
    Some(plain_rule(&harts.pool, &harts.bus, HART, &action, may_elide))
}

#[test]
fn a_swap_begins_a_section_where_it_changes_its_word(rt: HostRuntime) -> Result<(), Fail> {
    let began = Swap {
        word: WORD,
        old: 5,
        new: 6,
    };
    let harts = two_harts(rt.alloc(), &one(Letter::E, None))?;
    for (address, new, may_elide, rule) in [
        (WORD, 6, true, PlainRule::Begins { swap: began }),
        (WORD, 5, true, runs(WORD, Need::Write)),
        (WORD, 6, false, runs(WORD, Need::Write)),
        (WORD + 64, 6, true, misses(WORD + 64, Need::Read)),
        (WORD + 64, 6, false, misses(WORD + 64, Need::Write)),
    ] {
        assert_eq!(rt;
            swap_rule(&harts, address, new, may_elide),
            Some(rule),
            "{new} at {address:x}"
        );
    }
    Ok(())
}

#[test]
fn an_instruction_runs_where_the_letter_permits_it(rt: HostRuntime) -> Result<(), Fail> {
    let harts = two_harts(rt.alloc(), &one(Letter::S, None))?;
    assert_eq!(rt; load_rule(&harts, WORD), Some(runs(WORD, Need::Read)));
    assert_eq!(rt;
        load_rule(&harts, WORD + 64),
        Some(misses(WORD + 64, Need::Read))
    );
    assert_eq!(rt; store_rule(&harts, WORD), Some(misses(WORD, Need::Write)));
    assert_eq!(rt;
        swap_rule(&harts, WORD, 5, true),
        Some(misses(WORD, Need::Write))
    );
    let put = Action::Put { rd: X5, value: 7 };
    assert_eq!(rt;
        plain_rule(&harts.pool, &harts.bus, HART, &put, true),
        PlainRule::Runs { touch: None }
    );
    Ok(())
}

#[test]
fn no_section_begins_where_another_hart_waits_to_write(rt: HostRuntime) -> Result<(), Fail> {
    let cache = cache_of(rt.alloc(), &one(Letter::E, None))?;
    let written = Some(touch(WORD, Need::Write));
    let swap = |new| Swap {
        word: WORD,
        old: 5,
        new,
    };
    assert_eq!(rt;
        begin_rule(&cache.sets, true, swap(6), written),
        misses(WORD, Need::Read)
    );
    assert_eq!(rt;
        begin_rule(&cache.sets, true, swap(5), written),
        runs(WORD, Need::Write)
    );
    Ok(())
}

#[test]
fn a_hart_arms_at_an_lr_whose_line_it_may_read(rt: HostRuntime) -> Result<(), Fail> {
    let arms = PlainRule::Arms { word: WORD, old: 5 };
    let harts = two_harts(rt.alloc(), &one(Letter::S, None))?;
    for (address, may_elide, rule) in [
        (WORD, true, arms),
        (WORD, false, runs(WORD, Need::Read)),
        (WORD + 64, true, misses(WORD + 64, Need::Read)),
        (WORD + 64, false, misses(WORD + 64, Need::Read)),
    ] {
        assert_eq!(rt;
            reserve_rule(&harts, address, may_elide),
            Some(rule),
            "LR of {address:x}"
        );
    }
    Ok(())
}

#[test]
fn no_hart_arms_where_another_hart_waits_to_write(rt: HostRuntime) -> Result<(), Fail> {
    let cache = cache_of(rt.alloc(), &one(Letter::E, None))?;
    let read = Some(touch(WORD, Need::Read));
    assert_eq!(rt;
        arm_rule(&cache.pool, &cache.sets, true, WORD, read),
        runs(WORD, Need::Read)
    );
    assert_eq!(rt;
        arm_rule(&cache.pool, &cache.sets, false, WORD, read),
        PlainRule::Arms { word: WORD, old: 5 }
    );
    Ok(())
}

/// The rule of an action in an armed section that has run so many instructions, and whose word held 5.
fn armed(harts: &Harts, action: Action, count: u32, long: u32) -> ArmedRule {
    let progress = Progress {
        count,
        word: WORD,
        old: 5,
    };
    armed_rule(&harts.bus, HART, &action, progress, long)
}

/// The SC of the lock word that stores this is elided.
fn elides(new: u32) -> ArmedRule {
    ArmedRule::Elides {
        swap: Swap {
            word: WORD,
            old: 5,
            new,
        },
    }
}

#[test]
fn an_armed_section_ends_by_what_is_not_private(rt: HostRuntime) -> Result<(), Fail> {
    let harts = two_harts(rt.alloc(), &one(Letter::E, Some(Need::Read)))?;
    let branch = Action::Go { target: WORD };
    for (number, (action, count, long, rule)) in [
        (branch, 1, 100, ArmedRule::Continues),
        (branch, 14, 100, ArmedRule::Continues),
        (branch, 15, 100, ArmedRule::LetsGo),
        (branch, 8, 10, ArmedRule::Continues),
        (branch, 9, 10, ArmedRule::LetsGo),
        (branch, 1, 2, ArmedRule::LetsGo),
        (store_conditional(WORD, 6), 1, 2, elides(6)),
        (store_conditional(WORD, 6), 15, 100, elides(6)),
        (store_conditional(WORD, 5), 2, 100, ArmedRule::LetsGo),
        (store_conditional(WORD + 4, 6), 2, 100, ArmedRule::LetsGo),
        (Action::Fail { rd: X5 }, 2, 100, ArmedRule::LetsGo),
        (load_word(WORD), 1, 100, ArmedRule::LetsGo),
        (load_reserved(WORD), 1, 100, ArmedRule::LetsGo),
        (store(WORD, 6), 1, 100, ArmedRule::LetsGo),
        (swap(WORD, 6), 1, 100, ArmedRule::LetsGo),
        (Action::Answer { value: 0 }, 1, 100, ArmedRule::LetsGo),
        (Action::Trap { cause: 3 }, 1, 100, ArmedRule::LetsGo),
    ]
    .iter()
    .enumerate()
    {
        assert_eq!(rt;
            armed(&harts, *action, *count, *long),
            *rule,
            "row {number}"
        );
    }
    Ok(())
}

#[test]
fn no_sc_is_elided_where_another_hart_waits_to_write(rt: HostRuntime) {
    let swap = Swap {
        word: WORD,
        old: 5,
        new: 6,
    };
    assert_eq!(rt; complete_rule(swap, WORD, false), elides(6));
    assert_eq!(rt; complete_rule(swap, WORD, true), ArmedRule::LetsGo);
}

/// The rule of an action in a section that has run so many instructions, and whose lock word held 0.
fn in_section(harts: &Harts, action: Action, count: u32) -> SectionRule {
    let progress = Progress {
        count,
        word: WORD,
        old: 0,
    };
    section_rule(&harts.bus, HART, &action, progress, &config())
}

/// A full set: one line that the section has read, and one that it has written.
fn full() -> [Line; 2] {
    [
        Line {
            address: WORD,
            letter: Letter::E,
            bit: Some(Need::Read),
        },
        Line {
            address: WORD + 64,
            letter: Letter::M,
            bit: Some(Need::Write),
        },
    ]
}

#[test]
fn a_section_ends_by_the_first_rule_that_holds(rt: HostRuntime) -> Result<(), Fail> {
    let harts = two_harts(rt.alloc(), &full())?;
    let ends = |cause| SectionRule::RollsBack { cause };
    let call = Action::Answer { value: 0 };
    let trap = Action::Trap { cause: 3 };
    let put = Action::Put { rd: X5, value: 7 };
    for (number, (action, count, rule)) in [
        (store(WORD, 0), 10, ends(Cause::Long)),
        (call, 10, ends(Cause::Long)),
        (call, 9, ends(Cause::Call)),
        (trap, 9, ends(Cause::Call)),
        (store(WORD, 0), 9, SectionRule::Commits),
        (swap(WORD, 0), 9, SectionRule::Commits),
        (store(WORD, 1), 9, ends(Cause::Mixed)),
        (put, 9, SectionRule::Buffers { touch: None }),
        (load_word(WORD), 9, buffers(WORD, Need::Read)),
        (load_word(WORD + 64), 9, buffers(WORD + 64, Need::Read)),
        (store(WORD + 64, 0), 9, buffers(WORD + 64, Need::Write)),
        (store(WORD + 4, 0), 9, ends(Cause::Lines)),
        (store(WORD + 128, 0), 9, ends(Cause::Lines)),
        (load_word(WORD + 128), 9, ends(Cause::Room)),
    ]
    .iter()
    .enumerate()
    {
        assert_eq!(rt; in_section(&harts, *action, *count), *rule, "row {number}");
    }
    Ok(())
}

#[test]
fn a_new_bit_needs_its_letter(rt: HostRuntime) -> Result<(), Fail> {
    let shared = two_harts(rt.alloc(), &one(Letter::S, None))?;
    assert_eq!(rt;
        in_section(&shared, load_word(WORD), 2),
        buffers(WORD, Need::Read)
    );
    assert_eq!(rt;
        in_section(&shared, store(WORD + 4, 1), 2),
        section_misses(WORD, Need::Write)
    );
    assert_eq!(rt;
        in_section(&shared, load_word(WORD + 64), 2),
        section_misses(WORD + 64, Need::Read)
    );
    let alone = two_harts(rt.alloc(), &one(Letter::E, Some(Need::Read)))?;
    assert_eq!(rt;
        in_section(&alone, store(WORD + 4, 1), 2),
        buffers(WORD, Need::Write)
    );
    Ok(())
}

#[test]
fn no_new_bit_comes_where_another_hart_waits(rt: HostRuntime) -> Result<(), Fail> {
    let cache = cache_of(rt.alloc(), &one(Letter::E, None))?;
    for need in [Need::Read, Need::Write] {
        let rule = mark_rule(&cache.sets, true, touch(WORD, need), 1);
        assert_eq!(rt; rule, section_misses(WORD, need));
        let rule = mark_rule(&cache.sets, false, touch(WORD, need), 1);
        assert_eq!(rt; rule, buffers(WORD, need));
    }
    Ok(())
}
