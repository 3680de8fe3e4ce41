//! The form of a command line: a task of `spool`, or a program with its own name.
ghost use Rattle.std.specs.Prelude.{◌≡◌, drop, map};
ghost use Rattle.front_words.specs.Forms.{form_in, form_of_act, form_of_program, form_of_switch, form_of_task, plain_form, queue_form, refusal_status, skipped, spool_form};
ghost use Rattle.front_words.specs.PlainActs.{act_named};

use crate::given::last_part;
use crate::plain_acts::{PlainAct, act_named};
use std::convert::AsStr;

/// The form of a command line. Each form has its own options.
#[derive(Clone, Copy)]
pub enum Form {
    Submit,
    Status,
    Queues,
    Watch,
    Cancel,
    Hold,
    /// An action that needs nothing but jobs.
    Plain(PlainAct),
    QueueShow,
    QueueAdd,
    QueueSet,
    QueueAccept,
    QueueReject,
    QueueEnable,
    QueueDisable,
    Devices,
    Check,
    Page,
    Say,
    Lp,
    Lpr,
    Lpstat,
    CancelJobs,
    Lpq,
    Lprm,
    Lpoptions,
    Lpmove,
    CupsEnable,
    CupsDisable,
    CupsAccept,
    CupsReject,
    /// `spool` without a known task.
    Other,
}

/// Returns the form of the arguments, including the program's name.
pub fn form_of<S: AsStr>(words: &[S]) -> Form
    ensures { result ≡ form_in (map S.text words.now) }
{
    let Some((name, rest)) = words.split_first() else {
        return Form::Other;
    };
    match form_of_program(last_part(name.as_str().as_bytes(), b'/')) {
        Some(form) => form,
        None => spool_form(rest),
    }
}

/// Returns the arguments that the form's command reads: the last one that selects the form, and all after it.
pub fn own_words<S: AsStr>(form: Form, words: &[S]) -> &[S]
    ensures { map S.text result.now ≡ drop (skipped form) (map S.text words.now) }
{
    let count = skipped(form);
    if count <= words.len() {
        &words[count..]
    } else {
        &[]
    }
}

/// Returns the exit status if the arguments of this form are refused: 2 for `spool`, and 1 for a program with its own name, as in CUPS.
pub fn refusal_status(form: Form) -> u8
    ensures { result ≡ refusal_status form }
{
    match form {
        Form::Lp | Form::Lpr | Form::Lpstat | Form::CancelJobs | Form::Lpq | Form::Lprm => 1,
        Form::Lpoptions | Form::Lpmove | Form::CupsEnable | Form::CupsDisable => 1,
        Form::CupsAccept | Form::CupsReject => 1,
        _ => 2,
    }
}

// Returns the number of arguments before those.
fn skipped(form: Form) -> usize
    ensures { result ≡ skipped form }
{
    match form {
        Form::Lp | Form::Lpr | Form::Lpstat | Form::CancelJobs | Form::Lpq | Form::Lprm => 0,
        Form::Lpoptions | Form::Lpmove | Form::CupsEnable | Form::CupsDisable => 0,
        Form::CupsAccept | Form::CupsReject | Form::Other => 0,
        Form::QueueShow | Form::QueueAdd | Form::QueueSet | Form::QueueAccept => 2,
        Form::QueueReject | Form::QueueEnable | Form::QueueDisable => 2,
        _ => 1,
    }
}

// Returns the form of the program with this name.
fn form_of_program(name: &[u8]) -> Option<Form>
    ensures { result ≡ form_of_program name.now }
{
    if name == b"lp".as_slice() {
        Some(Form::Lp)
    } else if name == b"lpr".as_slice() {
        Some(Form::Lpr)
    } else if name == b"lpstat".as_slice() {
        Some(Form::Lpstat)
    } else if name == b"cancel".as_slice() {
        Some(Form::CancelJobs)
    } else if name == b"lpq".as_slice() {
        Some(Form::Lpq)
    } else if name == b"lprm".as_slice() {
        Some(Form::Lprm)
    } else if name == b"lpoptions".as_slice() {
        Some(Form::Lpoptions)
    } else if name == b"lpmove".as_slice() {
        Some(Form::Lpmove)
    } else {
        form_of_switch(name)
    }
}

// Returns the form of a program that starts or stops queues.
fn form_of_switch(name: &[u8]) -> Option<Form>
    ensures { result ≡ form_of_switch name.now }
{
    if name == b"cupsenable".as_slice() {
        Some(Form::CupsEnable)
    } else if name == b"cupsdisable".as_slice() {
        Some(Form::CupsDisable)
    } else if name == b"cupsaccept".as_slice() {
        Some(Form::CupsAccept)
    } else if name == b"cupsreject".as_slice() {
        Some(Form::CupsReject)
    } else {
        None
    }
}

// Returns the form of the task in the arguments after the program's name.
fn spool_form<S: AsStr>(words: &[S]) -> Form
    ensures { result ≡ spool_form (map S.text words.now) }
{
    let Some((task, rest)) = words.split_first() else {
        return Form::Other;
    };
    let task = task.as_str();
    if task == "queue" {
        queue_form(rest)
    } else {
        form_of_task(task)
    }
}

fn form_of_task(task: &str) -> Form
    ensures { result ≡ form_of_task task.now }
{
    if task == "submit" {
        Form::Submit
    } else if task == "status" {
        Form::Status
    } else if task == "queues" {
        Form::Queues
    } else if task == "watch" {
        Form::Watch
    } else if task == "cancel" {
        Form::Cancel
    } else if task == "hold" {
        Form::Hold
    } else if task == "devices" {
        Form::Devices
    } else if task == "check" {
        Form::Check
    } else if task == "page" {
        Form::Page
    } else if task == "say" {
        Form::Say
    } else {
        plain_form(task)
    }
}

// Returns the form of an action that needs nothing but jobs.
fn plain_form(task: &str) -> Form
    ensures { result ≡ plain_form (act_named task.now) }
{
    match act_named(task) {
        Some(act) => Form::Plain(act),
        None => Form::Other,
    }
}

// Returns the form of the action on a queue, from the arguments after `queue`.
fn queue_form<S: AsStr>(words: &[S]) -> Form
    ensures { result ≡ queue_form (map S.text words.now) }
{
    match words.first() {
        Some(act) => form_of_act(act.as_str()),
        None => Form::Other,
    }
}

fn form_of_act(act: &str) -> Form
    ensures { result ≡ form_of_act act.now }
{
    if act == "show" {
        Form::QueueShow
    } else if act == "add" {
        Form::QueueAdd
    } else if act == "set" {
        Form::QueueSet
    } else if act == "accept" {
        Form::QueueAccept
    } else if act == "reject" {
        Form::QueueReject
    } else if act == "enable" {
        Form::QueueEnable
    } else if act == "disable" {
        Form::QueueDisable
    } else {
        Form::Other
    }
}
