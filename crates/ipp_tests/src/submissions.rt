//! Whole submissions.
use front_submission::{Reply, Request, Shown};
use ipp_submission::Submission;
use std::alloc::AllocError;

// Whether the submission asks for this number of the request's kind, for the part with this number.
fn asks(submission: &Submission, part: usize, kind: u8) -> bool {
    let next = submission.request();
    let asked = match next.request {
        Request::Create => 0,
        Request::Read { .. } => 1,
        Request::Send { last: false, .. } => 2,
        Request::Send { last: true, .. } => 6,
        Request::Show { .. } => 7,
        Request::Close { .. } => 3,
        Request::Cancel { .. } => 4,
        Request::Nothing => 5,
        _ => 9,
    };
    next.part == part && asked == kind
}

// Print-Job of two pieces: create, send, send, close.
#[test]
fn prints_one_document(rt: HostRuntime) -> Result<(), AllocError> {
    let mut submission = Submission::new(rt.alloc(), false)?;
    assert!(rt; asks(&submission, 0, 0));
    submission.heard(Reply::Created { job: 7 });
    assert!(rt; asks(&submission, 0, 1) && submission.is_ready());
    if submission.is_ready() {
        submission.supplied(10);
    }
    assert!(rt; asks(&submission, 0, 2) && !submission.is_ready());
    submission.heard(Reply::Sent { size: 10 });
    if submission.is_ready() {
        submission.finish();
    }
    assert!(rt; asks(&submission, 0, 3) && !submission.is_accepted());
    submission.heard(Reply::Closed { printable: true });
    assert!(rt; asks(&submission, 0, 5) && submission.is_over());
    assert!(rt; submission.is_accepted() && submission.is_closed());
    Ok(())
}

// A document of one piece whose end has come with it. The piece and the close are one request.
#[test]
fn closes_with_the_last_piece(rt: HostRuntime) -> Result<(), AllocError> {
    let mut submission = Submission::new(rt.alloc(), false)?;
    submission.heard(Reply::Created { job: 7 });
    assert!(rt; submission.closes_with_last());
    if submission.is_ready() && submission.closes_with_last() {
        submission.supplied_last(10);
    }
    assert!(rt; asks(&submission, 0, 6) && !submission.is_ready());
    submission.heard(Reply::Closed { printable: true });
    assert!(rt; asks(&submission, 0, 5) && submission.is_over() && submission.is_accepted());
    Ok(())
}

// The service takes the last piece and refuses only the close with it: the job is closed by a request of its own.
#[test]
fn closes_after_the_last_piece(rt: HostRuntime) -> Result<(), AllocError> {
    let mut submission = Submission::new(rt.alloc(), false)?;
    submission.heard(Reply::Created { job: 7 });
    if submission.is_ready() && submission.closes_with_last() {
        submission.supplied_last(10);
    }
    submission.heard(Reply::Sent { size: 10 });
    assert!(rt; asks(&submission, 0, 3) && !submission.is_ready());
    submission.heard(Reply::Closed { printable: true });
    assert!(rt; submission.is_over() && submission.is_accepted());
    Ok(())
}

// The reply to the last piece is lost, and the loss is noted twice. The piece was not sent, so it is sent again. The second time the job was
// closed with it.
#[test]
fn asks_after_a_lost_last_piece(rt: HostRuntime) -> Result<(), AllocError> {
    let mut submission = Submission::new(rt.alloc(), false)?;
    submission.heard(Reply::Created { job: 7 });
    if submission.is_ready() && submission.closes_with_last() {
        submission.supplied_last(10);
    }
    submission.lost();
    submission.lost();
    submission.give_up();
    assert!(rt; asks(&submission, 0, 7));
    submission.heard(Reply::Job {
        shown: Shown::Arriving { size: 0 },
    });
    assert!(rt; asks(&submission, 0, 6));
    submission.lost();
    submission.heard(Reply::Job {
        shown: Shown::WasClosed,
    });
    assert!(rt; submission.is_over() && submission.is_accepted());
    Ok(())
}

// The job of a document that must be held, or that is not the only one, is not closed with a piece.
#[test]
fn closes_no_held_document_with_its_last_piece(rt: HostRuntime) -> Result<(), AllocError> {
    let held = Submission::new(rt.alloc(), true)?;
    assert!(rt; !held.closes_with_last());
    let mut several = Submission::new(rt.alloc(), false)?;
    several.heard(Reply::Created { job: 7 });
    if several.is_ready() {
        several.next_document()?;
    }
    assert!(rt; !several.closes_with_last());
    Ok(())
}

// Of two documents none is closed before the second has ended.
#[test]
fn closes_two_documents_in_order(rt: HostRuntime) -> Result<(), AllocError> {
    let mut submission = Submission::new(rt.alloc(), false)?;
    submission.heard(Reply::Created { job: 7 });
    if submission.is_ready() {
        submission.next_document()?;
    }
    assert!(rt; asks(&submission, 1, 0) && submission.parts().len() == 2);
    submission.heard(Reply::Created { job: 8 });
    if submission.is_ready() {
        submission.finish();
    }
    assert!(rt; asks(&submission, 0, 3));
    submission.heard(Reply::Closed { printable: true });
    assert!(rt; asks(&submission, 1, 3) && !submission.is_over());
    submission.heard(Reply::Closed { printable: false });
    assert!(rt; submission.is_over() && submission.is_closed() && !submission.is_accepted());
    Ok(())
}

// If the service refuses the second document, the job of the first is canceled.
#[test]
fn cancels_all_documents(rt: HostRuntime) -> Result<(), AllocError> {
    let mut submission = Submission::new(rt.alloc(), false)?;
    submission.heard(Reply::Created { job: 7 });
    if submission.is_ready() {
        submission.next_document()?;
    }
    submission.heard(Reply::Denied);
    assert!(rt; asks(&submission, 0, 4));
    submission.heard(Reply::Done);
    assert!(rt; submission.is_over() && !submission.is_closed());
    Ok(())
}

// A client that is lost while a piece is sent: the job is canceled after the reply. A service that is away leaves it.
#[test]
fn gives_up(rt: HostRuntime) -> Result<(), AllocError> {
    let mut submission = Submission::new(rt.alloc(), true)?;
    submission.lost();
    submission.heard(Reply::Created { job: 7 });
    submission.heard(Reply::Later);
    submission.give_up();
    submission.deserted();
    assert!(rt; submission.is_over() && !submission.is_accepted());
    Ok(())
}
