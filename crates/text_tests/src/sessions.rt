//! Tests of sessions on the side channel.
use side_channel::{
    Command, Device, DeviceId, Ending, Packet, SideFault, Status, serve, state_bits,
};
use std::alloc::{AllocError, Global};
use std::test::Fail;

// Returns a device that can be read from, is not connected, and is online with an empty tray.
fn printer(alloc: Global) -> Device {
    Device {
        bidi: true,
        connected: false,
        state: state_bits::ONLINE | state_bits::MEDIA_EMPTY,
        id: DeviceId::empty(alloc),
    }
}

// Four packets: three requests, one of them with data, and the end.
const ASKED: &[u8] = b"\x03\0\0\0\x01\0\0\x02AB\x05\0\0\0\xFF\0\0\0";

const TOLD: &[u8] = b"\x03\x01\0\x01\x01\x01\x01\0\0\x05\x01\0\x01\x21";

// Returns whether the requests get these answers, and end the session.
fn is_answered(alloc: Global, device: &Device) -> Result<bool, SideFault> {
    let mut written = Vec::new(alloc);
    written.reserve(TOLD.len())?;
    let ended = serve(alloc, &mut &ASKED[..], &mut written, device)?;
    Ok(ended == Ending::End && written.as_slice() == TOLD)
}

#[test]
fn requests_are_answered(rt: HostRuntime) -> Result<(), Fail> {
    let device = printer(rt.alloc());
    assert!(rt; is_answered(rt.alloc(), &device)?);
    Ok(())
}

// Returns the bytes of a request for the id.
fn request(alloc: Global) -> Result<Vec<u8>, AllocError> {
    let mut bytes = Vec::new(alloc);
    bytes.reserve(4)?;
    let request = Packet {
        command: Command::GetDeviceId.byte(),
        status: Status::None.byte(),
        length: 0,
        body: Vec::new(alloc),
    };
    match request.write(&mut bytes) {
        Ok(()) => Ok(bytes),
        Err(_) => Ok(Vec::new(alloc)),
    }
}

// Returns the data of the next packet, if there is one.
fn data(alloc: Global, reader: &mut &[u8]) -> Result<Option<Vec<u8>>, SideFault> {
    match Packet::read(alloc, reader)? {
        Some(packet) => Ok(Some(packet.body)),
        None => Ok(None),
    }
}

#[test]
fn a_packet_is_written_and_read(rt: HostRuntime) -> Result<(), Fail> {
    let bytes = request(rt.alloc())?;
    assert!(rt; bytes.as_slice() == b"\x04\0\0\0".as_slice());
    drop(bytes);
    let mut rest = b"\x01\0\0\x02AB".as_slice();
    let body = data(rt.alloc(), &mut rest)?.ok_or("no packet")?;
    assert!(rt; body.as_slice() == b"AB".as_slice());
    drop(body);
    assert!(rt; data(rt.alloc(), &mut rest)?.is_none());
    Ok(())
}
