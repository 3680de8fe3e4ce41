//! The properties of printers, with their values.
ghost use Rattle.std.specs.Prelude.{◌≡◌, IfOk, map};
ghost use Rattle.std.specs.Option.{option_map};
ghost use Rattle.ipp_printers.specs.PropertyValues.{words_of, items_in, every, flag_in, ranged_in, property_in, value_in, kind_of};

use crate::kind::PropertyKind;
use crate::media::{Keyword, MediaSize};
use line_words::{decimal, is_blank};
use spool_types::{Items, Message, Note, Ranged};
use std::alloc::{AllocError, Global};

/// At most 64 sizes of paper.
pub type MediaSizes = Items<MediaSize, 64>;

/// A resolution in dots per inch, in both directions.
pub type Resolution = Ranged<1, 65535>;

/// At most 64 resolutions.
pub type Resolutions = Items<Resolution, 64>;

/// At most 64 output bins.
pub type OutputBins = Items<Keyword, 64>;

/// A number of pages per minute.
pub type PageRate = Ranged<1, 2147483647>;

/// A property of a printer, with its value.
#[derive(Drop)]
pub enum Property {
    Info(Note),
    Location(Note),
    MakeAndModel(Note),
    DeviceId(Message),
    Media(MediaSizes),
    Color(bool),
    Duplex(bool),
    Resolutions(Resolutions),
    OutputBins(OutputBins),
    PagesPerMinute(PageRate),
    ColorPagesPerMinute(PageRate),
}

impl Property {
    /// Returns which property it is.
    pub fn kind(&self) -> PropertyKind
        ensures value { result ≡ kind_of self.now }
    {
        match self {
            Property::Info(_) => PropertyKind::Info,
            Property::Location(_) => PropertyKind::Location,
            Property::MakeAndModel(_) => PropertyKind::MakeAndModel,
            Property::DeviceId(_) => PropertyKind::DeviceId,
            Property::Media(_) => PropertyKind::Media,
            Property::Color(_) => PropertyKind::Color,
            Property::Duplex(_) => PropertyKind::Duplex,
            Property::Resolutions(_) => PropertyKind::Resolutions,
            Property::OutputBins(_) => PropertyKind::OutputBins,
            Property::PagesPerMinute(_) => PropertyKind::PagesPerMinute,
            Property::ColorPagesPerMinute(_) => PropertyKind::ColorPagesPerMinute,
        }
    }

    // Reads the value of a property. Returns `None` if the value is empty or does not have the form of this property.
    pub(crate) fn read(
        alloc: Global,
        kind: PropertyKind,
        value: &[u8],
    ) -> Result<Option<Property>, AllocError>
        ensures { IfOk result (λ property. property ≡ property_in kind value.now) }
    {
        if value.is_empty() {
            return Ok(None);
        }
        read_value(alloc, kind, value)
    }
}

fn read_value(
    alloc: Global,
    kind: PropertyKind,
    value: &[u8],
) -> Result<Option<Property>, AllocError>
    ensures { IfOk result (λ property. property ≡ value_in kind value.now) }
{
    Ok(match kind {
        PropertyKind::Info => Note::from_word(alloc, value)?.map(Property::Info),
        PropertyKind::Location => Note::from_word(alloc, value)?.map(Property::Location),
        PropertyKind::MakeAndModel => Note::from_word(alloc, value)?.map(Property::MakeAndModel),
        PropertyKind::DeviceId => Message::from_word(alloc, value)?.map(Property::DeviceId),
        PropertyKind::Media => read_items(alloc, value)?.map(Property::Media),
        PropertyKind::Color => read_flag(value).map(Property::Color),
        PropertyKind::Duplex => read_flag(value).map(Property::Duplex),
        PropertyKind::Resolutions => read_items(alloc, value)?.map(Property::Resolutions),
        PropertyKind::OutputBins => read_items(alloc, value)?.map(Property::OutputBins),
        PropertyKind::PagesPerMinute => read_ranged(value).map(Property::PagesPerMinute),
        PropertyKind::ColorPagesPerMinute => read_ranged(value).map(Property::ColorPagesPerMinute),
    })
}

fn read_flag(word: &[u8]) -> Option<bool>
    ensures { result ≡ flag_in word.now }
{
    if word == b"yes".as_slice() {
        Some(true)
    } else if word == b"no".as_slice() {
        Some(false)
    } else {
        None
    }
}

fn read_ranged<const LEAST: u32, const MOST: u32>(word: &[u8]) -> Option<Ranged<LEAST, MOST>>
    ensures { result ≡ ranged_in LEAST MOST word.now }
{
    let number = decimal(word, u64::from(MOST))?;
    Ranged::new(number as u32)
}

// A value that a word of a list states.
trait ListWord {
    ghost use Rattle.std.specs.Prelude.{◌≡◌, List, ℕ, Option, IfOk};

    ghost read_in: { List ℕ → Option Self };

    fn read_word(alloc: Global, word: &[u8]) -> Result<Option<Self>, AllocError>
        ensures { IfOk result (λ item. item ≡ read_in word.now) };
}

impl ListWord for MediaSize {
    ghost use Rattle.ipp_printers.specs.MediaNames.{media_in};

    ghost read_in = { media_in };

    fn read_word(alloc: Global, word: &[u8]) -> Result<Option<MediaSize>, AllocError> {
        MediaSize::read(alloc, word)
    }
}

impl ListWord for Resolution {
    ghost use Rattle.ipp_printers.specs.PropertyValues.{resolution_in};

    ghost read_in = { resolution_in };

    fn read_word(_alloc: Global, word: &[u8]) -> Result<Option<Resolution>, AllocError> {
        Ok(read_ranged(word))
    }
}

impl ListWord for Keyword {
    ghost use Rattle.spool_types.specs.Values.{text_in};
    ghost use Rattle.ipp_printers.specs.MediaNames.{is_keyword};

    ghost read_in = { text_in is_keyword };

    fn read_word(alloc: Global, word: &[u8]) -> Result<Option<Keyword>, AllocError> {
        Keyword::from_word(alloc, word)
    }
}

// Reads a list of at most 64 words.
fn read_items<T: ListWord + Drop>(
    alloc: Global,
    value: &[u8],
) -> Result<Option<Items<T, 64>>, AllocError>
    ensures { IfOk result (λ items. items ≡ items_in T.read_in value.now) }
{
    let Some(items) = read_every(alloc, &words_of(alloc, value)?)? else {
        return Ok(None);
    };
    Ok(Items::new(items).ok())
}

// Reads each word. Returns `None` if one of them has no value.
fn read_every<T: ListWord + Drop>(
    alloc: Global,
    words: &[&[u8]],
) -> Result<Option<Vec<T>>, AllocError>
    ensures { IfOk result (λ items. option_map (λ v. v.items) items ≡ every T.read_in (map (λ word. word.now) words.now)) }
{
    let mut items = Vec::with_capacity(alloc, words.len())?;
    for word in words {
        match T::read_word(alloc, word)? {
            Some(item) => items.push(item)?,
            None => return Ok(None),
        }
    }
    Ok(Some(items))
}

fn words_of<'a>(alloc: Global, value: &'a [u8]) -> Result<Vec<&'a [u8]>, AllocError>
    ensures { IfOk result (λ words. map (λ word. word.now) words.items ≡ words_of value.now) }
{
    value
        .split(|b| is_blank(*b))
        .filter(|word| !word.is_empty())
        .collect(alloc)
}
