//! The table of rights.
ghost use Rattle.std.specs.Prelude.{◌≡◌, ◌⊎◌, Some, true};
ghost use Rattle.ipp_access.specs.IppAccess.{may, may_change, reaches};

use crate::places::Place;
use crate::rights::Right;

/// Returns whether a client may do this at its place.
pub fn may(place: Place, right: Right) -> bool
    ensures value { result ≡ may place right }
{
    match place {
        Place::Operators => true,
        Place::Network | Place::Socket => match right {
            Right::Print | Right::Look | Right::ChangeOwnJobs => true,
            Right::ChangeAllJobs | Right::ChangePrinter => false,
        },
    }
}

/// Returns whether a client may change a job. `is_named` states whether the user whom the client names owns it, and `job` is its
/// place, if the front has made it.
pub fn may_change(place: Place, is_named: bool, job: Option<Place>) -> bool
    ensures value { result ≡ may_change place is_named job }
    ensures network { result ≡ true → place ≡ Place.Network → job ≡ Some Place.Network }
    ensures socket { result ≡ true → place ≡ Place.Socket → (job ≡ Some Place.Network) ⊎ (job ≡ Some Place.Socket) }
    ensures owner { result ≡ true → (is_named ≡ true) ⊎ (place ≡ Place.Operators) }
{
    match place {
        Place::Operators => true,
        Place::Network | Place::Socket => match job {
            Some(job) => is_named && reaches(place, job),
            None => false,
        },
    }
}

// Returns whether a place is at least as close to the system as that of a job.
fn reaches(place: Place, job: Place) -> bool
    ensures { result ≡ reaches place job }
{
    match place {
        Place::Operators => true,
        Place::Socket => match job {
            Place::Network | Place::Socket => true,
            Place::Operators => false,
        },
        Place::Network => matches!(job, Place::Network),
    }
}
