//! What the answers of a shared session table mean for those who share it, as laws.
#![tactic(auto)]

mod call_time_laws;
mod caller_laws;
mod contention_laws;
mod row_log_laws;

pub use call_time_laws::{
    answered_calls_stand_in_real_time, callers_are_yet_to_call, calls_are_answers,
    calls_are_entered_while_they_run, calls_go_on, looks_are_answers, steps_go_on,
    two_callers_come_to_rest,
};
pub use caller_laws::{
    agreeing_callers_have_one_order, agreeing_callers_share_a_history, answers_are_the_maps,
    answers_stand_after_what_was_known, calls_have_one_order, changed_alone_writes,
    known_pairs_are_the_buckets, logs_are_one_order, lone_callers_know_all, one_writer_has_one_map,
    one_writer_stays, only_the_least_expired_pair_goes, whole_callers_have_one_order,
    whole_callers_made_each_write,
};
pub use contention_laws::steps_fail_for_others;
pub use row_log_laws::{
    calls_enter_at_the_end, calls_stand_in_real_time, logs_only_grow, no_step_recalls,
    runs_answer_in_real_time, stale_reads_never_enter, whole_callers_know_the_log,
};
