//! Tests of device URIs, their options, and the lines that backends print for devices.
use device_uri::{
    DeviceLine, DeviceOption, DeviceUri, Field, LineFault, OptionsFault, UriFault, read_device_line,
};
use std::alloc::{AllocError, Global};
use std::test::Fail;

// Adds an option after a vertical bar.
fn push_option(text: &mut String, option: &DeviceOption) -> Result<(), AllocError> {
    text.push('|')?;
    text.push_str(option.name())?;
    text.push('=')?;
    text.push_str(option.value())
}

fn push_options(text: &mut String, options: &[DeviceOption]) -> Result<(), AllocError> {
    for option in options {
        push_option(text, option)?;
    }
    Ok(())
}

// Adds a URI's options, or the error of reading them.
fn push_options_of(text: &mut String, uri: &DeviceUri) -> Result<(), AllocError> {
    match uri.options() {
        Ok(options) => push_options(text, &options),
        Err(OptionsFault::BadOption) => text.push_str(" bad option"),
        Err(OptionsFault::Memory) => Err(AllocError),
    }
}

// Adds its scheme, path and options.
fn push_uri(text: &mut String, uri: &DeviceUri) -> Result<(), AllocError> {
    text.push_str(uri.scheme())?;
    text.push(' ')?;
    text.push_str(uri.path())?;
    push_options_of(text, uri)
}

// Adds the parts of a URI, or that the text is not a URI.
fn push_shown(shown: &mut String, alloc: Global, text: &str) -> Result<(), AllocError> {
    match DeviceUri::parse(alloc, text) {
        Ok(uri) => push_uri(shown, &uri),
        Err(UriFault::BadUri) => shown.push_str("bad uri"),
        Err(UriFault::Memory) => Err(AllocError),
    }
}

fn shown(alloc: Global, text: &str) -> Result<String, AllocError> {
    let mut shown = String::new(alloc);
    push_shown(&mut shown, alloc, text)?;
    Ok(shown)
}

fn is_shown(alloc: Global, text: &str, want: &str) -> Result<bool, AllocError> {
    Ok(shown(alloc, text)?.as_str() == want)
}

// A URI, and its parts.
const URIS: [(&str, &str); 12] = [
    (
        "spoolfile:/tmp/out?exit=6&id=A%20B",
        "spoolfile /tmp/out|exit=6|id=A B",
    ),
    ("lpt1", "bad uri"),
    ("SOCKET://10.0.0.2:9100", "socket "),
    ("ipp://host/a%20b?", "ipp /a%20b"),
    ("IPP://Host/a/../b", "ipp /b"),
    ("usb:/x?a=&b&&c=+1%2B", "usb /x|a=|b=|c= 1+"),
    ("usb:/x?a=%FF#f", "usb /x|a=\u{FFFD}"),
    ("usb:/x?a=1&=2", "usb /x bad option"),
    ("usb:/x?=", "usb /x bad option"),
    ("usb:/a b", "bad uri"),
    ("", "bad uri"),
    ("http://[", "bad uri"),
];

#[test]
fn a_uri_has_a_scheme_a_path_and_options(rt: HostRuntime) -> Result<(), Fail> {
    for (text, want) in URIS {
        assert!(rt; is_shown(rt.alloc(), text, want)?, "{text}");
    }
    Ok(())
}

#[test]
fn a_uri_keeps_its_text(rt: HostRuntime) -> Result<(), Fail> {
    let uri = DeviceUri::parse(rt.alloc(), "IPP://Host/a/../b")?;
    assert!(rt; uri.text() == "IPP://Host/a/../b");
    Ok(())
}

// Adds a field after a vertical bar, or a hyphen if it is missing.
fn push_field(text: &mut Vec<u8>, field: Option<&Field>) -> Result<(), AllocError> {
    text.push(b'|')?;
    match field {
        Some(field) => text.extend_from_slice(field.as_slice()),
        None => text.extend_from_slice(b"-"),
    }
}

fn push_fields(text: &mut Vec<u8>, line: &DeviceLine) -> Result<(), AllocError> {
    text.extend_from_slice(line.class.as_str().as_bytes())?;
    text.push(b'|')?;
    text.extend_from_slice(line.uri.as_str().as_bytes())?;
    push_field(text, Some(&line.make))?;
    push_field(text, Some(&line.info))?;
    push_field(text, line.id.as_ref())?;
    push_field(text, line.location.as_ref())
}

// Adds the fields of a line, or that it is not a device line.
fn push_line(text: &mut Vec<u8>, alloc: Global, line: &str) -> Result<(), AllocError> {
    match read_device_line(alloc, line) {
        Ok(fields) => {
            let pushed = push_fields(text, &fields);
            drop(fields);
            pushed
        }
        Err(LineFault::BadLine) => text.extend_from_slice(b"bad"),
        Err(LineFault::Memory) => Err(AllocError),
    }
}

fn fields_shown(alloc: Global, line: &str) -> Result<Vec<u8>, AllocError> {
    let mut text = Vec::new(alloc);
    push_line(&mut text, alloc, line)?;
    Ok(text)
}

fn has_fields(alloc: Global, line: &str, want: &str) -> Result<bool, AllocError> {
    Ok(fields_shown(alloc, line)?.as_slice() == want.as_bytes())
}

// A line, and its fields.
const LINES: [(&str, &str); 21] = [
    (
        "network socket \"Unknown\" \"AppSocket\"",
        "network|socket|Unknown|AppSocket|-|-",
    ),
    (
        "direct \t usb:/x\t\"A\"  \"B\" \"MFG:A;\"",
        "direct|usb:/x|A|B|MFG:A;|-",
    ),
    (
        "direct usb:/x \"A\" \"B\" \"\" \"Room 4\"",
        "direct|usb:/x|A|B||Room 4",
    ),
    (
        "a usb:/x \"\\\"A\\\\\" \"C:\\new\u{e9}\u{7}\"",
        "a|usb:/x|\"A\\|C:\\new\u{e9}\u{7}|-|-",
    ),
    ("direct usb:/x \"A", "bad"),
    ("", "bad"),
    ("direct", "bad"),
    ("direct usb:/x", "bad"),
    ("direct usb:/x \"A\"", "bad"),
    ("direct usb:/x A \"B\"", "bad"),
    ("direct usb:/x \"A\" B", "bad"),
    ("direct usb:/x \"A\"\"B\"", "bad"),
    ("direct usb:/x\"A\" \"B\"", "bad"),
    ("direct \"usb:/x\" \"A\" \"B\"", "bad"),
    ("dir_ect usb:/x \"A\" \"B\"", "bad"),
    ("direct usb:/\u{e9} \"A\" \"B\"", "bad"),
    (" direct usb:/x \"A\" \"B\"", "bad"),
    ("direct usb:/x \"A\" \"B\" ", "bad"),
    ("direct usb:/x \"A\" \"B\"\r", "bad"),
    ("direct usb:/x \"A\" \"B\\\"", "bad"),
    ("direct usb:/x \"A\" \"B\" \"C\" \"D\" \"E\"", "bad"),
];

#[test]
fn device_lines_have_four_to_six_fields(rt: HostRuntime) -> Result<(), Fail> {
    for (line, want) in LINES {
        assert!(rt; has_fields(rt.alloc(), line, want)?, "{line}");
    }
    Ok(())
}
