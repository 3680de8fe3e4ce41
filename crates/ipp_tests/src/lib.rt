//! Tests of the crates that answer IPP requests, with enough memory: the answers of `ipp_answers` and `printer_answers`, with texts and
//! numbers from standards, the attributes of jobs (`ipp_options`), files of printers (`ipp_printers`), and whole submissions
//! (`ipp_submission`). The meaning of attributes and files is shown by the examples of `ipp_option_examples` and `ipp_printer_examples`.
#![tactic(auto)]

#[cfg(test)]
mod answers;
#[cfg(test)]
mod printers;
#[cfg(test)]
mod samples;
#[cfg(test)]
mod settings;
#[cfg(test)]
mod submissions;
