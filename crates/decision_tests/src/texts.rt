//! Reading and copying texts.
use spool_types::{MediaType, QueueName, TextFault, Title};
use std::alloc::{AllocError, Global};
use std::test::Fail;

fn is_read(alloc: Global, text: &str) -> Result<bool, TextFault> {
    let name = QueueName::read(alloc, text)?;
    Ok(name.as_str() == text)
}

fn is_copied(alloc: Global, text: &str) -> Result<bool, TextFault> {
    let name = QueueName::read(alloc, text)?;
    let copy: Result<_, _> = name.clone();
    drop(name);
    Ok(copy?.as_str() == text)
}

fn is_title(alloc: Global, word: &[u8], want: &str) -> Result<bool, AllocError> {
    match Title::from_word(alloc, word)? {
        Some(title) => Ok(title.as_str() == want),
        None => Ok(false),
    }
}

fn is_folded(alloc: Global, word: &[u8], want: &str) -> Result<bool, AllocError> {
    match QueueName::from_folded_word(alloc, word)? {
        Some(name) => Ok(name.as_str() == want),
        None => Ok(false),
    }
}

#[test]
fn texts_are_copied(rt: HostRuntime) -> Result<(), Fail> {
    assert!(rt; is_read(rt.alloc(), "lab")?);
    assert!(rt; is_copied(rt.alloc(), "lab")?);
    assert!(rt; is_title(rt.alloc(), b"First \xC3\xA9", "First \u{e9}")?);
    assert!(rt; is_folded(rt.alloc(), b"Lab", "lab")?);
    Ok(())
}

fn is_media(alloc: Global, text: &str, want: &str) -> Result<bool, TextFault> {
    let media = MediaType::read(alloc, text)?;
    Ok(media.as_str() == want)
}

fn is_copied_media(alloc: Global, text: &str, want: &str) -> Result<bool, TextFault> {
    let media = MediaType::read(alloc, text)?;
    let copy: Result<_, _> = media.clone();
    drop(media);
    Ok(copy?.as_str() == want)
}

fn is_media_word(alloc: Global, word: &[u8], want: &str) -> Result<bool, AllocError> {
    match MediaType::from_word(alloc, word)? {
        Some(media) => Ok(media.as_str() == want),
        None => Ok(false),
    }
}

#[test]
fn media_types_are_copied(rt: HostRuntime) -> Result<(), Fail> {
    assert!(rt; is_media(rt.alloc(), "Image/SVG+xml", "image/svg+xml")?);
    assert!(rt; is_copied_media(rt.alloc(), "Image/SVG+xml", "image/svg+xml")?);
    assert!(rt; is_media_word(rt.alloc(), b"text/PLAIN", "text/plain")?);
    Ok(())
}
