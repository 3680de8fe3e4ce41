//! The printers of a file.
ghost use Rattle.std.specs.Prelude.{◌≡◌, ◌∷◌, ◌++◌, [], Ok, Some, None, cond, map, IfOk, IfErr, OnOk};
ghost use Rattle.std.specs.List.{find, list_any};
ghost use Rattle.std.specs.Option.{option_map};
ghost use Rattle.ipp_printers.specs.MediaNames.{same};
ghost use Rattle.ipp_printers.specs.PropertyValues.{kind_of};
ghost use Rattle.ipp_printers.specs.PrinterLines.{lines_of, lines_in};
ghost use Rattle.ipp_printers.specs.PrinterSections.{sections_of, fault_after, is_named, is_of, with_line, HasNoFault, IsFault};
ghost use Rattle.ipp_printers.specs.PrinterFacts.{properties_for, a4};
ghost use Rattle.ipp_printers.specs.SectionFields.{part_of, parts_of, properties_of};

use crate::fault::{LineFault, PrintersFault};
use crate::line::{Line, read_line};
use crate::media::{Keyword, MediaSize};
use crate::printer::{Printer, find_kind};
use crate::property::{MediaSizes, Property};
use spool_types::{Items, QueueName, TextFault};
use std::alloc::{AllocError, Global};
use std::marker::Model;

/// The section of a queue.
#[derive(Drop)]
pub(crate) struct Section {
    queue: QueueName,
    properties: Vec<Property>,
}

/// The printers of a file.
#[derive(Drop)]
pub struct PrinterList {
    all: Vec<Property>,
    queues: Vec<Section>,
    // The size A4 alone.
    default_media: MediaSizes,
}

impl Model for PrinterList {
    ghost use Rattle.std.specs.Prelude.{◌≡◌, ◌∷◌, [], List, ℕ};
    ghost use Rattle.ipp_printers.specs.PrinterFacts.{a4};
    ghost use Rattle.ipp_printers.specs.SectionFields.{parts_of};
    ghost use Rattle.ipp_printers.specs.declared.property.Property.{Property};

    ghost Value = { List Property × List (List ℕ × List Property) };

    ghost view = { λ list. (list.all.items, parts_of list.queues.items) };

    ghost invariant = { λ list. list.default_media ≡ a4 ∷ [] };
}

impl PrinterList {
    /// Returns a list without lines: each printer has the defaults.
    pub fn empty(alloc: Global) -> Result<PrinterList, AllocError>
        ensures value { IfOk result (λ list. list ≡ ([], [])) }
    {
        Ok(PrinterList {
            all: Vec::new(alloc),
            queues: Vec::new(alloc),
            default_media: default_media(alloc)?,
        })
    }

    /// Reads the text of a file. If a line has a fault, the whole text is rejected.
    pub fn read(alloc: Global, text: &str) -> Result<PrinterList, PrintersFault>
        ensures value { IfOk result (λ list. list ≡ sections_of (lines_in text.now)) }
        ensures reads { OnOk result (HasNoFault (lines_in text.now)) }
        ensures fault { IfErr result (λ fault. IsFault fault (lines_in text.now)) }
    {
        let mut list = PrinterList::empty(alloc)?;
        for (i, line) in lines_of(alloc, text)?.iter().enumerate() {
            let meaning = read_line(alloc, line.as_bytes())?;
            if let Some(fault) = list.add(alloc, meaning)? {
                return Err(PrintersFault::Line {
                    number: i + 1,
                    fault,
                });
            }
        }
        Ok(list)
    }

    // Adds a line. Returns its fault, if it has one.
    fn add(&mut self, alloc: Global, line: Line) -> Result<Option<LineFault>, AllocError>
        ensures fault { IfOk result (λ fault. fault ≡ fault_after self.old line) }
        ensures added { result ≡ Ok None → self.new ≡ with_line self.old line }
    {
        match line {
            Line::Blank => Ok(None),
            Line::Invalid(fault) => Ok(Some(fault)),
            Line::Queue(name) => self.add_queue(alloc, name),
            Line::Property(property) => self.add_property(property),
        }
    }

    // Begins the section of a queue.
    fn add_queue(
        &mut self,
        alloc: Global,
        queue: QueueName,
    ) -> Result<Option<LineFault>, AllocError>
        ensures fault { IfOk result (λ fault. fault ≡ fault_after self.old (Line.Queue queue)) }
        ensures added { result ≡ Ok None → self.new ≡ with_line self.old (Line.Queue queue) }
    {
        if find_section(&self.queues, queue.as_str()).is_some() {
            return Ok(Some(LineFault::QueueTwice));
        }
        self.queues.push(Section {
            queue,
            properties: Vec::new(alloc),
        })?;
        Ok(None)
    }

    // Adds a property to the last section.
    fn add_property(&mut self, property: Property) -> Result<Option<LineFault>, AllocError>
        ensures fault { IfOk result (λ fault. fault ≡ fault_after self.old (Line.Property property)) }
        ensures added { result ≡ Ok None → self.new ≡ with_line self.old (Line.Property property) }
    {
        if self.queues.is_empty() {
            return push_property(&mut self.all, property);
        }
        let last = self.queues.len() - 1;
        push_property(&mut self.queues[last].properties, property)
    }

    /// Returns the printer of a queue. A queue without a section has the properties of all printers.
    pub fn printer(&self, queue: &str) -> Printer<'_>
        ensures value { result ≡ properties_for queue.now self.now }
    {
        Printer::new(
            properties_of(find_section(&self.queues, queue)),
            &self.all,
            self.default_media.as_slice(),
        )
    }
}

// Returns the size A4.
fn default_media(alloc: Global) -> Result<MediaSizes, AllocError>
    ensures { IfOk result (λ sizes. sizes ≡ a4 ∷ []) }
{
    let name = match Keyword::read(alloc, "iso_a4_210x297mm") {
        Ok(name) => name,
        Err(TextFault::Memory) => return Err(AllocError),
        Err(TextFault::Bad) => unreachable!(),
    };
    let mut sizes = Vec::new(alloc);
    sizes.push(MediaSize {
        name,
        width: 21_000,
        height: 29_700,
    })?;
    match Items::new(sizes) {
        Ok(sizes) => Ok(sizes),
        Err(_) => unreachable!(),
    }
}

// Returns the lines of a text. The last may be empty.
fn lines_of<'a>(alloc: Global, text: &'a str) -> Result<Vec<&'a str>, AllocError>
    ensures { IfOk result (λ lines. map (λ line. line.now) lines.items ≡ lines_of text.now) }
{
    text.split('\n').collect(alloc)
}

// Returns the section of a queue.
fn find_section<'a>(sections: &'a [Section], queue: &str) -> Option<&'a Section>
    ensures { option_map (λ section. section.now) result ≡ find (λ section. same section.queue queue.now) sections.now }
{
    sections
        .iter()
        .find(|section| section.queue.as_str() == queue)
}

// Returns the properties of a section, none without one.
fn properties_of<'a>(section: Option<&'a Section>) -> &'a [Property]
    ensures { result.now ≡ properties_of (option_map (λ section. section.now) section.entry) }
{
    match section {
        Some(section) => &section.properties,
        None => &[],
    }
}

// Adds a property to a section. Returns the fault if the section has it already.
fn push_property(
    properties: &mut Vec<Property>,
    property: Property,
) -> Result<Option<LineFault>, AllocError>
    ensures fault { IfOk result (λ fault. fault ≡ cond (list_any (is_of (kind_of property)) properties.old.items) (Some LineFault.PropertyTwice) None) }
    ensures added { result ≡ Ok None → properties.new.items ≡ properties.old.items ++ property ∷ [] }
{
    if find_kind(properties, property.kind()).is_some() {
        drop(property);
        return Ok(Some(LineFault::PropertyTwice));
    }
    properties.push(property)?;
    Ok(None)
}
