//! Runs over a connection in memory. The expected values are written by hand from the page of the protocol.

use crate::memory::MemoryConnection;
use service_client::{Answered, ConnectionFault, Mirror, Reply, Session, send_text};
use std::alloc::{AllocError, Global};
use std::test::Fail;

const COMMANDS: [&str; 3] = ["jobs\n", "queues\n", "cancel 9\n"];

const REPLIES: &str =
    "job 1 lab 3 none \"ann\" 5 0 \"okay\"\njob 2 lab 3 none \"bob\" 5 0 \"error\"\nok 2\nok 0\nerror 5 NoJob\n";

const LAST_LINES: [&str; 3] = ["ok 2", "ok 0", "error 5 NoJob"];

fn session_over(
    alloc: Global,
    text: &[u8],
    piece: usize,
) -> Result<Session<MemoryConnection, usize>, AllocError> {
    let connection = MemoryConnection::new(alloc, text, piece)?;
    Ok(Session::new(alloc, connection))
}

fn send_all(
    session: &mut Session<MemoryConnection, usize>,
    answers: &mut Vec<Answered<usize>>,
) -> Result<(), ConnectionFault> {
    for (at, command) in COMMANDS.iter().enumerate() {
        session.send(at, command.as_bytes(), answers)?;
    }
    session.settle(answers)
}

// Returns whether the answers are the first replies, each with its command.
fn are_first(answers: &[Answered<usize>]) -> bool {
    answers.iter().enumerate().all(|(at, answer)| answer.tag == at && has_last(&answer.reply, at))
}

fn has_last(reply: &Reply, at: usize) -> bool {
    match LAST_LINES.get(at) {
        Some(line) => reply.last.as_slice() == line.as_bytes(),
        None => false,
    }
}

// Runs the commands over these bytes. Returns the number of replies, or none if a reply was given to another command or a command was lost twice
// or not at all.
fn replies_over(alloc: Global, text: &[u8], piece: usize) -> Result<Option<usize>, AllocError> {
    let mut session = session_over(alloc, text, piece)?;
    let mut answers = Vec::new(alloc);
    let ended = send_all(&mut session, &mut answers).is_ok();
    let lost = session.lose();
    let count = answers.len();
    let in_order = are_first(&answers)
        && lost
            .iter()
            .enumerate()
            .all(|(at, asked)| asked.tag.checked_sub(count) == Some(at));
    let complete = count.checked_add(lost.len()) == Some(COMMANDS.len())
        && ended == lost.is_empty();
    drop(answers);
    drop(lost);
    Ok(if in_order && complete {
        Some(count)
    } else {
        None
    })
}

#[test]
fn replies_come_in_order(rt: HostRuntime) -> Result<(), Fail> {
    for piece in 1..REPLIES.len() {
        assert_eq!(rt;
            replies_over(rt.alloc(), REPLIES.as_bytes(), piece)?,
            Some(3)
        );
    }
    Ok(())
}

#[test]
fn each_command_is_answered_or_lost(rt: HostRuntime) -> Result<(), Fail> {
    // The replies end at these bytes.
    let ends = [74, 79, 93];
    for end in 0..=REPLIES.len() {
        let whole = ends.iter().filter(|at| **at <= end).count();
        assert_eq!(rt;
            replies_over(rt.alloc(), &REPLIES.as_bytes()[..end], 7)?,
            Some(whole)
        );
    }
    Ok(())
}

#[test]
fn pieces_are_sent_with_their_length(rt: HostRuntime) -> Result<(), Fail> {
    let line = send_text(rt.alloc(), 4, b"a\nb")?;
    assert!(rt; line.as_slice() == b"send 4 3\na\nb\n".as_slice());
    Ok(())
}

#[test]
fn mirrors_follow(rt: HostRuntime) -> Result<(), Fail> {
    let mut mirror = Mirror::new(rt.alloc());
    assert!(rt; mirror.must_list() && !mirror.is_whole());
    mirror.begin();
    for line in [
        "job 1 lab 3 none \"ann\" 5 0 \"a\"",
        "queue lab 3 accepting",
        "ok 1",
        "queue lab 4 accepting",
        "ok 1",
    ] {
        mirror.tell(line.as_bytes())?;
    }
    assert!(rt;
        mirror.is_whole() && mirror.queue(b"lab") == Some(b"queue lab 4 accepting".as_slice())
    );
    mirror.tell(b"job 1 lab 9 none \"ann\" 5 1 \"a\"")?;
    assert!(rt; mirror.job(1) == Some(b"job 1 lab 9 none \"ann\" 5 1 \"a\"".as_slice()));
    mirror.tell(b"gone job 1")?;
    mirror.tell(b"gone queue lab")?;
    assert!(rt;
        mirror.job(1).is_none() && mirror.queue(b"lab").is_none() && mirror.queues().is_empty()
    );
    mirror.tell(b"missed")?;
    assert!(rt; mirror.must_list());
    Ok(())
}
