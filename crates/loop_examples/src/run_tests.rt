//! A run of the service over parts in memory.
use crate::clocks::MemTimes;
use crate::connections::MemConnection;
use crate::listeners::MemListener;
use crate::senders::MemSignals;
use child_pipeline::MemChildren;
use client_standing::{RoleRules, Trust};
use filter_args::Place;
use log::sink::Discard;
use mime_costs::Convs;
use mime_rules::Types;
use service_loop::{Keeping, Limits, Service};
use spool_core::{Spool, make};
use spool_disk::MemDisk;
use spool_engine::Engine;
use spool_types::UserName;
use std::alloc::Global;
use std::cell::RefCell;
use std::test::Fail;

// The length of the disk.
const LEN: usize = 65_536;

// How many children and clients there may be at once.
const LIMITS: Limits = Limits {
    children: 4,
    clients: 16,
};

// The first moment of the system's clock, in milliseconds.
const FIRST_MOMENT: u64 = 1_000_000;

// Each client may do everything.
const TRUSTED: RoleRules = RoleRules {
    trust: Trust::All,
    show_all: false,
};

// A client may do everything only if it came by the operators' socket.
const STRICT: RoleRules = RoleRules {
    trust: Trust::None,
    show_all: false,
};

// A client of a run: its text, whether it stays connected, and whether it came by the operators' socket.
struct Plan {
    text: &'static [u8],
    stays: bool,
    is_operators: bool,
}

// The clients, in the order in which they connect. The first one stays connected.
const TRUSTED_RUN: [Plan; 4] = [
    Plan {
        text: b"watch\n",
        stays: true,
        is_operators: false,
    },
    Plan {
        text: b"queue q s:/ application/octet-stream abort-job 0 0\ncreate q u \"t\" 1 50 \"\"\n",
        stays: false,
        is_operators: false,
    },
    Plan {
        text: b"cancel 1\njobs\ncancel 1",
        stays: false,
        is_operators: false,
    },
    Plan {
        text: b"shutdown\n",
        stays: false,
        is_operators: false,
    },
];

// What they are sent. The last line of the third one lacks its line feed, so it is not served.
const CREATED: &str = "ok\nok job 1\n";

const CANCELED: &str = "ok\njob 1 q 7 canceled \"u\" 0 0 \"t\"\nok 1\n";

const WATCHED: &str =
    "ok\njob 1 q 4 job-incoming \"u\" 0 0 \"t\"\nqueue q 3 accepting application/octet-stream abort-job 0 0 none \"\"\njob 1 q 7 canceled \"u\" 0 0 \"t\"\n";

// The clients of a run with roles: an operator, a stranger, a client that proves to be the user of the first job, and an operator.
const STRICT_RUN: [Plan; 4] = [
    Plan {
        text: b"queue q s:/ application/octet-stream abort-job 0 0\ncreate q u \"t\" 1 50 \"\"\n",
        stays: false,
        is_operators: true,
    },
    Plan {
        text: b"cancel 1\njobs\nreject q\ncreate q v \"w\" 1 50 \"\"\ncancel 2\n",
        stays: false,
        is_operators: false,
    },
    Plan {
        text: b"i-am\nmade\ncancel 1\njobs\nshutdown\n",
        stays: false,
        is_operators: false,
    },
    Plan {
        text: b"shutdown\n",
        stays: false,
        is_operators: true,
    },
];

const DENIED: &str =
    "error denied\njob 1 q 4 job-incoming \"\" 0 0 \"\"\nok 1\nerror denied\nok job 2\nok\n";

const PROVED: &str =
    "ok proof \"/proof\"\nok user u\nok\njob 1 q 7 canceled \"u\" 0 0 \"t\"\njob 2 q 7 canceled \"\" 0 0 \"\"\nok 2\nerror denied\n";

const KEEPING: Keeping = Keeping {
    jobs: 100,
    room: 10,
    area: 32_768,
    incoming: 900_000,
};

fn new_disk(alloc: Global) -> Result<MemDisk, Fail> {
    let mut disk = MemDisk::new(alloc, LEN)?;
    make(&mut disk)?;
    Ok(disk)
}

fn new_place(alloc: Global) -> Result<Place, Fail> {
    Ok(Place {
        root: String::from_str(alloc, "/r")?,
        lang: String::from_str(alloc, "C")?,
        path: String::from_str(alloc, "/bin")?,
        side: false,
    })
}

// An engine over an empty spool in memory, whose children all fail to start.
fn new_engine(alloc: Global) -> Result<Engine<MemDisk, MemChildren>, Fail> {
    let (types, _) = Types::read(alloc, "")?;
    let (convs, _) = Convs::read(alloc, "")?;
    let place = new_place(alloc)?;
    let children = MemChildren::new(alloc, Vec::new(alloc), Vec::new(alloc), Vec::new(alloc))?;
    let disk = new_disk(alloc)?;
    match Spool::open(alloc, disk) {
        Ok(spool) => Ok(Engine::new(alloc, spool, children, types, convs, place)),
        Err(error) => Err(Fail::from(error.fault)),
    }
}

// An empty text for each of four clients.
fn nothing_seen(alloc: Global) -> Result<Vec<RefCell<Vec<u8>>>, Fail> {
    let mut seen = Vec::new(alloc);
    for _ in 0..4 {
        seen.push(RefCell::new(Vec::new(alloc)))?;
    }
    Ok(seen)
}

// The clients connect in the order of their plans.
fn push_clients<'a>(
    coming: &mut Vec<MemConnection<'a>>,
    alloc: Global,
    seen: &'a [RefCell<Vec<u8>>],
    plans: &[Plan],
    rules: RoleRules,
    user: &'a UserName,
) -> Result<(), Fail> {
    if let ([a, b, c, d], [first, second, third, fourth]) = (seen, plans) {
        coming.push(new_client(alloc, d, fourth, rules, user))?;
        coming.push(new_client(alloc, c, third, rules, user))?;
        coming.push(new_client(alloc, b, second, rules, user))?;
        coming.push(new_client(alloc, a, first, rules, user))?;
    }
    Ok(())
}

fn new_client<'a>(
    alloc: Global,
    seen: &'a RefCell<Vec<u8>>,
    plan: &Plan,
    rules: RoleRules,
    user: &'a UserName,
) -> MemConnection<'a> {
    MemConnection::new(
        alloc,
        plan.text,
        plan.stays,
        seen,
        rules,
        plan.is_operators,
        user,
    )
}

// Serves the clients of a listener until one of them ends the service.
fn serve(
    alloc: Global,
    engine: Engine<MemDisk, MemChildren>,
    listener: &mut MemListener<'_>,
    signals: &mut MemSignals,
) -> Result<(), Fail> {
    let mut times = MemTimes::new(FIRST_MOMENT);
    let mut service = Service::new(&Discard, alloc, LIMITS, engine, KEEPING, 0)?;
    service.serve(listener, &mut times, signals)?;
    Ok(())
}

// Serves the clients of these plans, who prove to be the user `u`. Returns whether no child had to be ended.
fn serve_all(
    alloc: Global,
    seen: &[RefCell<Vec<u8>>],
    plans: &[Plan],
    rules: RoleRules,
) -> Result<bool, Fail> {
    let Some(user) = UserName::from_word(alloc, b"u")? else {
        return Ok(false);
    };
    let mut coming = Vec::new(alloc);
    push_clients(&mut coming, alloc, seen, plans, rules, &user)?;
    let mut listener = MemListener::new(coming);
    let mut signals = MemSignals::new(alloc, 4)?;
    serve(alloc, new_engine(alloc)?, &mut listener, &mut signals)?;
    Ok(signals.sent().is_empty())
}

// Whether exactly this was sent to the client at this position.
fn was_sent(seen: &[RefCell<Vec<u8>>], at: usize, text: &str) -> bool {
    let Some(cell) = seen.get(at) else {
        return false;
    };
    match cell.try_borrow() {
        Ok(bytes) => bytes.as_slice() == text.as_bytes(),
        Err(_) => false,
    }
}

#[test]
fn each_client_gets_its_replies(rt: HostRuntime) -> Result<(), Fail> {
    let seen = nothing_seen(rt.alloc())?;
    assert!(rt; serve_all(rt.alloc(), &seen, &TRUSTED_RUN, TRUSTED)?);
    assert!(rt; was_sent(&seen, 0, WATCHED));
    assert!(rt; was_sent(&seen, 1, CREATED));
    assert!(rt; was_sent(&seen, 2, CANCELED));
    assert!(rt; was_sent(&seen, 3, "ok\n"));
    Ok(())
}

#[test]
fn each_client_may_do_what_its_role_allows(rt: HostRuntime) -> Result<(), Fail> {
    let seen = nothing_seen(rt.alloc())?;
    assert!(rt; serve_all(rt.alloc(), &seen, &STRICT_RUN, STRICT)?);
    assert!(rt; was_sent(&seen, 0, CREATED));
    assert!(rt; was_sent(&seen, 1, DENIED));
    assert!(rt; was_sent(&seen, 2, PROVED));
    assert!(rt; was_sent(&seen, 3, "ok\n"));
    Ok(())
}
