//! Tests of printers files.
use ipp_printers::{LineFault, MediaSize, Printer, PrinterList, PrintersFault};
use std::alloc::{AllocError, Global};
use std::test::Fail;

const FILE: &str =
    "location Hall\n\nqueue lab # 1\ninfo Lab\nmedia na_letter_8.5x11in\nresolutions 600 300\noutput-bins face-down top\npages-per-minute 30\ncolor yes\n";

fn has_own(lab: &Printer) -> bool {
    lab.info().is_some_and(|text| text.as_str() == "Lab")
        && lab.media().first().is_some_and(|size| size.width == 21_590)
        && lab.resolutions().len() == 2
        && lab.output_bins().len() == 2
        && lab.pages_per_minute().is_some_and(|rate| rate.get() == 30)
        && lab.color()
}

fn has_others(lab: &Printer) -> bool {
    lab.location().is_some_and(|text| text.as_str() == "Hall")
        && lab.make_and_model().is_none()
        && lab.device_id().is_none()
        && lab.color_pages_per_minute().is_none()
        && !lab.duplex()
}

#[test]
fn a_queue_has_its_own_section(rt: HostRuntime) -> Result<(), AllocError> {
    match PrinterList::read(rt.alloc(), FILE) {
        Ok(list) => {
            let lab = list.printer("lab");
            assert!(rt; has_own(&lab) && has_others(&lab));
            Ok(())
        }
        Err(_) => Err(AllocError),
    }
}

// Returns the number and the reason of the first fault.
fn fault(alloc: Global, file: &str) -> Option<(usize, &'static str)> {
    match PrinterList::read(alloc, file) {
        Err(PrintersFault::Line { number, fault }) => Some((number, fault.reason())),
        _ => None,
    }
}

#[test]
fn the_first_fault_is_reported(rt: HostRuntime) -> Result<(), Fail> {
    let (number, reason) = fault(rt.alloc(), "color no\n\ncolor yes\nwhat").ok_or("no fault")?;
    assert_eq!(rt; number, 3);
    assert_eq!(rt; reason, LineFault::PropertyTwice.reason());
    Ok(())
}

#[test]
fn a_size_is_read(rt: HostRuntime) -> Result<(), Fail> {
    let size = MediaSize::read(rt.alloc(), b"iso_a5_148x210mm")?.ok_or("no size")?;
    assert_eq!(rt; size.height, 21_000);
    assert!(rt; size.short_name() == b"a5".as_slice());
    let list = PrinterList::empty(rt.alloc())?;
    assert_eq!(rt; list.printer("q").media().len(), 1);
    Ok(())
}
