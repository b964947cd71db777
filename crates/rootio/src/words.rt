//! The words of the command line.
ghost use Rattle.std.specs.Prelude.{◌≡◌, ◌==◌, nat_le, position, true, codes, IfOk, OnErr};
ghost use Rattle.std.specs.Str.{bytes_eq};
ghost use Rattle.std.specs.List.{list_all};
ghost use Rattle.rootio.specs.Words.{are_of_import, asked_by, class_in_version, class_of, cycle_item, dump_of, export_of, form_of_words, gen_of_words, import_of_words, is_file, is_no_flag, is_writing_verb, item_of, ls_of, may_write, newest_item, recover_of, run_of, scan_in_version, scan_of, scan_of_words, target_at_1, target_by, tree_of, version_of};

use crate::class_word::ClassWord;
use crate::item_word::ItemWord;
use crate::target::Target;
use crate::tree_word::TreeWord;
use rio_cmd::{ImportWords, read_gen_words, read_import_words};
use rio_num::{Name, NoMemory, Words, is_item, is_name};
use rio_token::{parse_num, parse_num_between};
use std::alloc::Global;

/// What the words ask for, where they have a form.
#[derive(Drop)]
pub enum Form<'a> {
    /// What there is to say of the file is said, and it stays as it is.
    Reads(Listing<'a>),
    /// The file is changed.
    Writes(Work<'a>),
}

/// What is said of a file.
#[derive(Debug, Drop)]
pub enum Listing<'a> {
    /// `ls FILE`: a line for each key of the key list.
    Ls,
    /// `dump FILE` and `dump FILE ITEM`: the classes and the values of all keys, or the value of one.
    Dump {
        item: Option<ItemWord<'a>>,
    },
    /// `scan FILE TREE` and `scan FILE TREE CLASS#VERSION`: the entries of a tree, or the entries with the objects of a
    /// class in another version.
    Scan {
        tree: TreeWord<'a>,
        class: Option<ClassWord<'a>>,
    },
    /// `export FILE TREE`: the entries of a tree as CSV.
    Export {
        tree: TreeWord<'a>,
    },
}

/// What is done to a file.
#[derive(Drop)]
pub enum Work<'a> {
    /// `run FILE` and `run FILE DATIME`: the commands of a script are done. The input is the script.
    Run {
        target: Target<'a>,
    },
    /// `recover FILE` and `recover FILE DATIME`: the file is opened and closed, and its keys are said.
    Recover {
        target: Target<'a>,
    },
    /// `import FILE TREE EVERY SPEC...`: a tree is made with a branch for each SPEC, a row of CSV becomes an entry, and the
    /// tree is saved after each EVERY rows, where that isn't 0. The input are the rows.
    Import {
        target: Target<'a>,
        words: ImportWords,
    },
    /// `gen FILE N`: a new file is made, with a tree of N entries, and it is said what it holds.
    Generate {
        target: Target<'a>,
        entries: u32,
    },
}

// A word that begins with `-` has no place in any form.
fn is_plain(word: &[u8]) -> bool
    ensures { result ≡ is_no_flag word.now }
{
    match word {
        [b'-', ..] => false,
        _ => true,
    }
}

fn are_printable(word: &[u8]) -> bool
    ensures { result ≡ list_all (nat_le 32) word.now }
{
    word.iter().all(|byte| 0x20 <= *byte)
}

// Whether a word can name a file: 1 to 200 bytes, none below 0x20.
fn names_file(word: &[u8]) -> bool
    ensures { result ≡ is_file word.now }
{
    is_plain(word) && !word.is_empty() && word.len() <= 200 && are_printable(word)
}

fn newest_item(name: &[u8]) -> Option<ItemWord<'_>>
    ensures { result ≡ newest_item name.now }
{
    is_item(name).then_some(ItemWord { name, cycle: None })
}

fn cycle_item<'a>(name: &'a [u8], cycle: &[u8]) -> Option<ItemWord<'a>>
    ensures { result ≡ cycle_item name.now cycle.now }
{
    if !is_item(name) {
        return None;
    }
    match parse_num(cycle) {
        Some(cycle) => Some(ItemWord {
            name,
            cycle: Some(cycle),
        }),
        None => None,
    }
}

fn semicolon_in(word: &[u8]) -> Option<usize>
    ensures { result ≡ position (λ b. b == 59) word.now }
{
    word.iter().position(|byte| *byte == b';')
}

// The item that a word names: a name alone, or with a semicolon and a cycle behind it.
fn item_of(word: &[u8]) -> Option<ItemWord<'_>>
    ensures { result ≡ item_of word.now }
{
    match semicolon_in(word) {
        None => newest_item(word),
        Some(semicolon) => cycle_item(&word[..semicolon], &word[semicolon + 1..]),
    }
}

// A class version: 1 to 32,767.
fn version_of(word: &[u8]) -> Option<i32>
    ensures { result ≡ version_of word.now }
{
    match parse_num_between(word, 1, 32767) {
        Some(version) => Some(version as i32),
        None => None,
    }
}

fn class_in_version<'a>(name: &'a [u8], version: &[u8]) -> Option<ClassWord<'a>>
    ensures { result ≡ class_in_version name.now version.now }
{
    if !is_name(name) {
        return None;
    }
    match version_of(version) {
        Some(version) => Some(ClassWord { name, version }),
        None => None,
    }
}

fn number_sign_in(word: &[u8]) -> Option<usize>
    ensures { result ≡ position (λ b. b == 35) word.now }
{
    word.iter().position(|byte| *byte == b'#')
}

// The class in a version that a word names: its name, a number sign and the version.
fn class_of(word: &[u8]) -> Option<ClassWord<'_>>
    ensures { result ≡ class_of word.now }
{
    match number_sign_in(word) {
        None => None,
        Some(sign) => class_in_version(&word[..sign], &word[sign + 1..]),
    }
}

fn is_verb(word: &[u8], verb: &[u8]) -> bool
    ensures { result ≡ bytes_eq word.now verb.now }
{
    word == verb
}

fn ls_of(args: &[Name]) -> Option<Form<'static>>
    ensures { result ≡ ls_of args.now }
{
    match args {
        [] => Some(Form::Reads(Listing::Ls)),
        _ => None,
    }
}

fn dump_of(args: &[Name]) -> Option<Form<'_>>
    ensures { result ≡ dump_of args.now }
{
    match args {
        [] => Some(Form::Reads(Listing::Dump { item: None })),
        [item] => match item_of(item.as_slice()) {
            Some(item) => Some(Form::Reads(Listing::Dump { item: Some(item) })),
            None => None,
        },
        _ => None,
    }
}

// A tree, where one can be called so.
fn tree_of(name: &[u8]) -> Option<TreeWord<'_>>
    ensures { result ≡ tree_of name.now }
{
    is_item(name).then_some(TreeWord { name })
}

fn scan_of(tree: &[u8]) -> Option<Form<'_>>
    ensures { result ≡ scan_of tree.now }
{
    match tree_of(tree) {
        Some(tree) => Some(Form::Reads(Listing::Scan { tree, class: None })),
        None => None,
    }
}

fn scan_in_version<'a>(tree: &'a [u8], class: &'a [u8]) -> Option<Form<'a>>
    ensures { result ≡ scan_in_version tree.now class.now }
{
    match (tree_of(tree), class_of(class)) {
        (Some(tree), Some(class)) => Some(Form::Reads(Listing::Scan {
            tree,
            class: Some(class),
        })),
        _ => None,
    }
}

fn scan_of_words(args: &[Name]) -> Option<Form<'_>>
    ensures { result ≡ scan_of_words args.now }
{
    match args {
        [tree] => scan_of(tree.as_slice()),
        [tree, class] => scan_in_version(tree.as_slice(), class.as_slice()),
        _ => None,
    }
}

fn export_of(args: &[Name]) -> Option<Form<'_>>
    ensures { result ≡ export_of args.now }
{
    match args {
        [tree] => match tree_of(tree.as_slice()) {
            Some(tree) => Some(Form::Reads(Listing::Export { tree })),
            None => None,
        },
        _ => None,
    }
}

// The file with the datime that stands behind it, or with 1.
fn target_by<'a>(file: &'a [u8], args: &[Name]) -> Option<Target<'a>>
    ensures { result ≡ target_by file.now args.now }
{
    match args {
        [] => Some(Target {
            name: file,
            datime: 1,
        }),
        [datime] => match parse_num(datime.as_slice()) {
            Some(datime) => Some(Target { name: file, datime }),
            None => None,
        },
        _ => None,
    }
}

fn run_of<'a>(file: &'a [u8], args: &[Name]) -> Option<Form<'a>>
    ensures { result ≡ run_of file.now args.now }
{
    match target_by(file, args) {
        Some(target) => Some(Form::Writes(Work::Run { target })),
        None => None,
    }
}

fn recover_of<'a>(file: &'a [u8], args: &[Name]) -> Option<Form<'a>>
    ensures { result ≡ recover_of file.now args.now }
{
    match target_by(file, args) {
        Some(target) => Some(Form::Writes(Work::Recover { target })),
        None => None,
    }
}

// A file without a datime behind it.
fn target_at_1(file: &[u8]) -> Target<'_>
    ensures { result ≡ target_at_1 file.now }
{
    Target {
        name: file,
        datime: 1,
    }
}

fn import_of_words<'a>(
    alloc: Global,
    file: &'a [u8],
    args: &[Name],
) -> Result<Option<Form<'a>>, NoMemory>
    ensures { IfOk result (λ form. form ≡ import_of_words file.now args.now) }
{
    match read_import_words(alloc, args)? {
        Some(words) => Ok(Some(Form::Writes(Work::Import {
            target: target_at_1(file),
            words,
        }))),
        None => Ok(None),
    }
}

fn gen_of_words<'a>(file: &'a [u8], args: &[Name]) -> Option<Form<'a>>
    ensures { result ≡ gen_of_words file.now args.now }
{
    match read_gen_words(args) {
        Some(entries) => Some(Form::Writes(Work::Generate {
            target: target_at_1(file),
            entries,
        })),
        None => None,
    }
}

// What a verb is asked for by the file and the words behind it. Those of an import take memory.
fn asked_by<'a>(
    alloc: Global,
    verb: &[u8],
    file: &'a [u8],
    args: &'a [Name],
) -> Result<Option<Form<'a>>, NoMemory>
    ensures form { IfOk result (λ form. form ≡ asked_by verb.now file.now args.now) }
    ensures err { OnErr result (bytes_eq verb.now (codes "import") ≡ true) }
{
    if is_verb(verb, b"ls") {
        Ok(ls_of(args))
    } else if is_verb(verb, b"dump") {
        Ok(dump_of(args))
    } else if is_verb(verb, b"scan") {
        Ok(scan_of_words(args))
    } else if is_verb(verb, b"export") {
        Ok(export_of(args))
    } else if is_verb(verb, b"run") {
        Ok(run_of(file, args))
    } else if is_verb(verb, b"recover") {
        Ok(recover_of(file, args))
    } else if is_verb(verb, b"import") {
        import_of_words(alloc, file, args)
    } else if is_verb(verb, b"gen") {
        Ok(gen_of_words(file, args))
    } else {
        Ok(None)
    }
}

fn are_plain(words: &[Name]) -> bool
    ensures { result ≡ list_all is_no_flag words.now }
{
    words.iter().all(|word| is_plain(word.as_slice()))
}

/// The form that the words have: None where they are of no form. Only those of an import take memory.
pub fn read_form(alloc: Global, words: &Words) -> Result<Option<Form<'_>>, NoMemory>
    ensures form { IfOk result (λ form. form ≡ form_of_words words.now) }
    ensures err { OnErr result (are_of_import words.now ≡ true) }
{
    match words.as_slice() {
        [verb, file, args @ ..] => {
            if names_file(file.as_slice()) && are_plain(args) {
                asked_by(alloc, verb.as_slice(), file.as_slice(), args)
            } else {
                Ok(None)
            }
        }
        _ => Ok(None),
    }
}

fn is_writing_verb(verb: &[u8]) -> bool
    ensures { result ≡ is_writing_verb verb.now }
{
    is_verb(verb, b"run")
        || is_verb(verb, b"recover")
        || is_verb(verb, b"import")
        || is_verb(verb, b"gen")
}

/// Whether the file may be written: only by a verb that writes.
pub fn may_write(words: &Words) -> bool
    ensures { result ≡ may_write words.now }
{
    match words.as_slice() {
        [verb, ..] => is_writing_verb(verb.as_slice()),
        [] => false,
    }
}
