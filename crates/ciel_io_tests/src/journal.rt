// The journal: each call once with ample memory, and the laws at a type of names.

use ciel_journal::law;
use ciel_journal::turn::{first_due, has, idle};
use std::test::Fail;

#[test]
fn the_first_due_loss_has_the_least_count(rt: HostRuntime) -> Result<(), Fail> {
    let losses = [(5, 0), (2, 1), (3, 2), (2, 0)];
    assert_eq!(rt; first_due(&losses, 1, &[]), None);
    assert_eq!(rt; first_due(&losses, 9, &[]), Some(1));
    assert_eq!(rt; first_due(&losses, 9, &[1]), Some(3));
    assert_eq!(rt; first_due(&losses, 9, &[1, 0]), Some(2));
    Ok(())
}

#[test]
fn idle_workers_are_neither_lost_nor_busy(rt: HostRuntime) -> Result<(), Fail> {
    assert_eq!(rt;
        idle(rt.alloc(), 5, &[3], &[0, 1])?.as_slice(),
        [2, 4].as_slice()
    );
    assert!(rt; has(&[4, 2], 2));
    Ok(())
}

#[test]
fn the_laws_hold_at_a_type() {
    law::live_is_told::<u32>();
    law::started_is_needed::<u32>();
    law::circle_is_endless::<u32>();
    law::ready_or_circle::<u32>();
    law::ready_is_listed::<u32>();
    law::few_starts::<u32>();
    law::few_between::<u32>();
    law::names_have_one_mark::<u32>();
    law::names_determine::<u32>();
    law::one_worker_is_determined::<u32>();
    law::book_is_made::<u32>();
    law::all_is_booked::<u32>();
    law::histories_go_on::<u32>();
    law::next_is_one::<u32>();
    law::journals_alone::<u32>();
    law::small_jobs_are_jobs();
    law::small_histories_are_driven();
    law::small_histories_break_laws();
    law::small_histories_break_turns();
}
