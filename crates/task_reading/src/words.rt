//! The words of the command line.
ghost use Rattle.std.specs.Prelude.{◌≡◌, ◌≤◌, ◌&&◌, IfOk, IfSome, List, Some, map, nat_le, option_map, string_bytes};
ghost use Rattle.std.specs.List.{cons_option};
ghost use Rattle.clap.specs.Walk.{Text};
ghost use Rattle.net_names.specs.Prelude.{option_filter, numeral};
ghost use Rattle.task_reading.specs.Words.{HasSize, IsStanding, form_by, form_of, form_seen, name_by, text_seen};
ghost use Rattle.task_reading.specs.declared.words.FileOption.{FileOption as AFileOption};

use crate::command::new_command;
use crate::types::File;
use clap::error::ErrorKind;
use net_names::{Asn, NoMemory, number, read_asn};
use std::alloc::Global;

/// An option with a file for what is asked. The file is read in the place of the script.
#[derive(Clone, Copy, Debug, PartialEq, Eq)]
pub enum FileOption {
    /// `--script FILE`.
    Script,
    /// `--activations FILE`.
    Activations,
    /// `--messages FILE`.
    Messages,
    /// `--sweep FILE`.
    Sweep,
    /// `--check FILE`.
    Check,
}

/// A form that the words may have.
#[derive(Clone, Copy)]
pub enum WordForm<'a> {
    /// `asprop REL` with any of `--vrps FILE` and `--scenario FILE`, and with one of the options with a file for what
    /// is asked, or with none of them, which is as a script without a name.
    File {
        /// The name of the relationship file.
        rel: &'a str,
        /// The name of the payload file.
        vrps: Option<&'a str>,
        /// The name of the scenario.
        scenario: Option<&'a str>,
        /// The name of the option's file.
        file: Option<&'a str>,
        /// The option.
        option: FileOption,
    },
    /// `asprop REL --origin N`.
    Origin {
        /// The name of the relationship file.
        rel: &'a str,
        /// The AS that announces.
        origin: Asn,
    },
    /// `asprop --demo N`.
    Demo {
        /// How many ASes the generated input has, from 4 to 20,000.
        size: u32,
    },
}

impl<'a> WordForm<'a> {
    /// The name that the form gives to a file, if it names one.
    pub fn name(&self, file: File) -> Option<&'a str>
        ensures { text_seen result ≡ name_by (Some (form_seen self.now)) file }
    {
        match (self, file) {
            (WordForm::File { rel, .. }, File::Relations) => Some(rel),
            (WordForm::File { vrps, .. }, File::Payloads) => *vrps,
            (WordForm::File { scenario, .. }, File::Scenario) => *scenario,
            (WordForm::File { file, .. }, File::Asked) => *file,
            (WordForm::Origin { rel, .. }, File::Relations) => Some(rel),
            (WordForm::Origin { .. }, _) => None,
            (WordForm::Demo { .. }, _) => None,
        }
    }
}

// The size of a generated input.
fn size(text: &[u8]) -> Option<u32>
    ensures value { result ≡ option_filter (λ n. nat_le 4 n && nat_le n 20000) (numeral 10 5 text.now) }
    ensures range { IfSome result (λ n. (4 ≤ n) × (n ≤ 20000)) }
{
    let n = number(text, 10, 5)?;
    if n >= 4 && n <= 20_000 {
        Some(n as u32)
    } else {
        None
    }
}

// The options with a file that stand.
#[derive(Clone, Copy)]
enum Standing<'a> {
    // None.
    None,
    // This one, with this file.
    One(FileOption, &'a str),
    // More than one.
    More,
}

// Those that stand, and one more option before them, if it stands.
fn with_option<'a>(option: FileOption, file: Option<&'a str>, others: Standing<'a>) -> Standing<'a>
    ensures { (files : List (AFileOption × Text)) → IsStanding others.entry files
        → IsStanding result (cons_option (option_map (λ name. (option, name)) (text_seen file.entry)) files) }
{
    match (file, others) {
        (None, others) => others,
        (Some(file), Standing::None) => Standing::One(option, file),
        (Some(_), Standing::One(_, _)) => Standing::More,
        (Some(_), Standing::More) => Standing::More,
    }
}

// The table of the forms.
fn form_by<'a>(
    files: Standing<'a>,
    rel: Option<&'a str>,
    vrps: Option<&'a str>,
    scenario: Option<&'a str>,
    origin: Option<&'a str>,
    demo: Option<&'a str>,
) -> Option<WordForm<'a>>
    ensures form { (stand : List (AFileOption × Text)) → IsStanding files.entry stand → option_map form_seen result
        ≡ form_by stand (text_seen rel.entry) (text_seen vrps.entry) (text_seen scenario.entry)
        (text_seen origin.entry) (text_seen demo.entry) }
    ensures sized { HasSize (option_map form_seen result) }
{
    match (files, rel, vrps, scenario, origin, demo) {
        (Standing::None, Some(rel), vrps, scenario, None, None) => Some(WordForm::File {
            rel,
            vrps,
            scenario,
            file: None,
            option: FileOption::Script,
        }),
        (Standing::One(option, file), Some(rel), vrps, scenario, None, None) => {
            Some(WordForm::File {
                rel,
                vrps,
                scenario,
                file: Some(file),
                option,
            })
        }
        (Standing::None, Some(rel), None, None, Some(number), None) => {
            match read_asn(number.as_bytes()) {
                Some(origin) => Some(WordForm::Origin { rel, origin }),
                None => None,
            }
        }
        (Standing::None, None, None, None, None, Some(number)) => match size(number.as_bytes()) {
            Some(size) => Some(WordForm::Demo { size }),
            None => None,
        },
        _ => None,
    }
}

/// The form of the words, the program's name first; `None` exactly where the command doesn't take them or they have no form.
pub fn read_words<'a>(alloc: Global, words: &'a [String]) -> Result<Option<WordForm<'a>>, NoMemory>
    ensures form { IfOk result (λ form. option_map form_seen form ≡ form_of (map string_bytes words.now)) }
    ensures sized { IfOk result (λ form. HasSize (option_map form_seen form)) }
{
    let command = new_command(alloc)?;
    let matches = match command.try_get_matches_from(words) {
        Ok(matches) => matches,
        Err(error) => {
            if error.kind() == ErrorKind::OutOfMemory {
                return Err(NoMemory);
            }
            return Ok(None);
        }
    };
    let files = with_option(FileOption::Check, matches.get_str("check"), Standing::None);
    let files = with_option(FileOption::Sweep, matches.get_str("sweep"), files);
    let files = with_option(FileOption::Messages, matches.get_str("messages"), files);
    let files = with_option(
        FileOption::Activations,
        matches.get_str("activations"),
        files,
    );
    let files = with_option(FileOption::Script, matches.get_str("script"), files);
    Ok(form_by(
        files,
        matches.get_str("rel"),
        matches.get_str("vrps"),
        matches.get_str("scenario"),
        matches.get_str("origin"),
        matches.get_str("demo"),
    ))
}
