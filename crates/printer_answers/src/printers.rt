//! The answers about printers.
ghost use Rattle.std.specs.Prelude.{◌≡◌, ◌++◌, List, filter, map, IfOk, OnOk};
ghost use Rattle.std.specs.List.{filter_map};
ghost use Rattle.ipp_printers.specs.declared.property.Property.{Property};
ghost use Rattle.ipp_values.specs.declared.tags.GroupTag.TheVariants as group_tags;
ghost use Rattle.requested_attributes.specs.AttributeGroups.{answered, attribute_of, is_wanted, is_wanted_row};
ghost use Rattle.printer_answers.specs.PrinterRows.{printer_rows};
ghost use Rattle.printer_answers.specs.PrinterSelections.{selected_rows};
ghost use Rattle.printer_answers.specs.PrinterSources.{stated};
ghost use Rattle.printer_answers.specs.declared.facts.PrinterFacts.{PrinterFacts as FactsOf};
ghost use Rattle.ipp_answers.specs.declared.facts.Server.{Server as ServerOf};

use crate::facts::PrinterFacts;
use crate::printer_sources::PrinterRow;
use crate::printer_table::{description_table, template_table};
use crate::printer_values::source_values;
use ipp_answers::Server;
use ipp_printers::Printer;
use ipp_values::{Attribute, Group, GroupTag, Items};
use requested_attributes::{Asked, is_wanted, push_attribute};
use std::alloc::{AllocError, Global};

/// The attributes that a client asks for of printers. It is made once for a request, for all printers of the answer.
#[derive(Drop)]
pub struct PrinterSelection {
    description: Vec<PrinterRow<'static>>,
    template: Vec<PrinterRow<'static>>,
}

impl PrinterSelection {
    /// Returns the attributes of the table that are asked for, in its order.
    pub fn of(alloc: Global, asked: Asked<'_>) -> Result<PrinterSelection, AllocError>
        ensures { IfOk result (λ selection. (s : ServerOf) (d : List Property) (f : FactsOf) → selected_rows selection s d f ≡ filter (is_wanted_row asked.entry) (printer_rows s d f)) }
    {
        let description = wanted(alloc, asked, description_table())?;
        let template = wanted(alloc, asked, template_table())?;
        Ok(PrinterSelection {
            description,
            template,
        })
    }

    /// Returns these attributes of a printer. An attribute without values is absent.
    #[tactic(auto, using(crate::proofs::SelectedRows::of_two))]
    pub fn group(
        &self,
        alloc: Global,
        server: &Server<'_>,
        printer: &Printer<'_>,
        facts: &PrinterFacts,
    ) -> Result<Group, AllocError>
        ensures tag { IfOk result (λ group. group.tag ≡ group_tags.Printer) }
        ensures attributes { IfOk result (λ group. group.attributes ≡ filter_map attribute_of (selected_rows self.now server.now printer.now facts.now)) }
    {
        let mut attributes = Items::empty(alloc);
        let description = self.description.as_slice();
        push_attributes(alloc, &mut attributes, description, server, printer, facts)?;
        let template = self.template.as_slice();
        push_attributes(alloc, &mut attributes, template, server, printer, facts)?;
        Ok(Group {
            tag: GroupTag::Printer,
            attributes,
        })
    }
}

fn wanted(
    alloc: Global,
    asked: Asked<'_>,
    table: &[PrinterRow<'static>],
) -> Result<Vec<PrinterRow<'static>>, AllocError>
    ensures { IfOk result (λ rows. rows.items ≡ filter (λ row. is_wanted asked.entry row.name.now row.group) table.now) }
{
    let mut rows = Vec::new(alloc);
    for row in table {
        if is_wanted(asked, row.name, row.group) {
            rows.push(*row)?;
        }
    }
    Ok(rows)
}

fn push_attributes(
    alloc: Global,
    attributes: &mut Items<Attribute>,
    rows: &[PrinterRow<'_>],
    server: &Server<'_>,
    printer: &Printer<'_>,
    facts: &PrinterFacts,
) -> Result<(), AllocError>
    ensures { OnOk result (attributes.new ≡ attributes.old ++ filter_map attribute_of (map (stated server.now printer.now facts.now) rows.now)) }
{
    for row in rows {
        let values = source_values(alloc, server, printer, facts, row.source)?;
        push_attribute(alloc, attributes, row.name, values)?;
    }
    Ok(())
}

/// Returns the attributes of a printer that a client asks for.
pub fn printer_group(
    alloc: Global,
    asked: Asked<'_>,
    server: &Server<'_>,
    printer: &Printer<'_>,
    facts: &PrinterFacts,
) -> Result<Group, AllocError>
    ensures tag { IfOk result (λ group. group.tag ≡ group_tags.Printer) }
    ensures attributes { IfOk result (λ group. group.attributes ≡ answered asked.entry (printer_rows server.now printer.now facts.now)) }
{
    let selection = PrinterSelection::of(alloc, asked)?;
    let group = selection.group(alloc, server, printer, facts);
    drop(selection);
    group
}
