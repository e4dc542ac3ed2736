// The 21 listed status words and their short names, in one table (rule 13.5). The names are those of the variants in
// src/response/status.rs of the crate iso7816 0.2.2 (see NOTICE).
ghost use Rattle.std.specs.Prelude.{◌≡◌, ◌<◌, ◌≤◌};
ghost use Rattle.response.specs.Words.{listed_at, name_in, NameCopied, ListedIs, NameIs};

use crate::Status;
use basis::Refusal;

// An entry of the table: a word, how many letters its name has, and the name with spaces after it.
// Stays: the definitions `listed_at` and `name_in` say a name as the first letters of 32.
#[derive(Clone, Copy)]
struct ListedWord {
    word: u16,
    len: usize,
    letters: [u8; 32],
}

// The table, in the order of document 02.
const WORDS: [ListedWord; 21] = [
    ListedWord {
        word: 0x6700,
        len: 11,
        letters: *b"WrongLength                     ",
    },
    ListedWord {
        word: 0x6881,
        len: 26,
        letters: *b"LogicalChannelNotSupported      ",
    },
    ListedWord {
        word: 0x6882,
        len: 27,
        letters: *b"SecureMessagingNotSupported     ",
    },
    ListedWord {
        word: 0x6883,
        len: 26,
        letters: *b"LastCommandOfChainExpected      ",
    },
    ListedWord {
        word: 0x6884,
        len: 27,
        letters: *b"CommandChainingNotSupported     ",
    },
    ListedWord {
        word: 0x6981,
        len: 32,
        letters: *b"CommandIncompatibleFileStructure",
    },
    ListedWord {
        word: 0x6982,
        len: 26,
        letters: *b"SecurityStatusNotSatisfied      ",
    },
    ListedWord {
        word: 0x6983,
        len: 16,
        letters: *b"OperationBlocked                ",
    },
    ListedWord {
        word: 0x6984,
        len: 22,
        letters: *b"ReferenceDataNotUsable          ",
    },
    ListedWord {
        word: 0x6985,
        len: 27,
        letters: *b"ConditionsOfUseNotSatisfied     ",
    },
    ListedWord {
        word: 0x6986,
        len: 21,
        letters: *b"CommandNotAllowedNoEf           ",
    },
    ListedWord {
        word: 0x6A80,
        len: 22,
        letters: *b"IncorrectDataParameter          ",
    },
    ListedWord {
        word: 0x6A81,
        len: 20,
        letters: *b"FunctionNotSupported            ",
    },
    ListedWord {
        word: 0x6A82,
        len: 8,
        letters: *b"NotFound                        ",
    },
    ListedWord {
        word: 0x6A83,
        len: 14,
        letters: *b"RecordNotFound                  ",
    },
    ListedWord {
        word: 0x6A84,
        len: 15,
        letters: *b"NotEnoughMemory                 ",
    },
    ListedWord {
        word: 0x6A86,
        len: 24,
        letters: *b"IncorrectP1OrP2Parameter        ",
    },
    ListedWord {
        word: 0x6A88,
        len: 20,
        letters: *b"KeyReferenceNotFound            ",
    },
    ListedWord {
        word: 0x6B00,
        len: 15,
        letters: *b"WrongParameters                 ",
    },
    ListedWord {
        word: 0x6D00,
        len: 32,
        letters: *b"InstructionNotSupportedOrInvalid",
    },
    ListedWord {
        word: 0x6E00,
        len: 17,
        letters: *b"ClassNotSupported               ",
    },
];

// The entry at a place of the table.
fn listed_at(place: usize) -> ListedWord
    requires { place < 21 }
    ensures { result ≡ listed_at place }
{
    WORDS[place]
}

// Copies the name of an entry to the front of a lent buffer, and says how many bytes were copied: 16 if the name is
// longer than the buffer.
fn copy_name(entry: ListedWord, to: &mut [u8]) -> Result<usize, Refusal>
    requires { entry.len ≤ 32 }
    ensures { NameCopied (name_in entry) to.old result to.new }
{
    let len = entry.len;
    if to.len() < len {
        return Err(Refusal::DoesNotFit);
    }
    let letters = entry.letters;
    to[..len].copy_from_slice(&letters[..len]);
    Ok(len)
}

impl Status {
    // The place of this status in the table, counted from 0, if it is listed: it is looked up by its word (rule 13.5).
    pub fn listed(self) -> Option<usize>
        ensures { ListedIs self result }
    {
        let word = self.word();
        for place in 0..WORDS.len() {
            let entry = listed_at(place);
            if entry.word == word {
                return Some(place);
            }
        }
        None
    }

    // Copies the name of this status to the front of a lent buffer. A status that is not listed has no name: no byte is
    // copied (rule 13.5).
    pub fn name(self, to: &mut [u8]) -> Result<usize, Refusal>
        ensures { NameIs self to.old result to.new }
    {
        match self.listed() {
            None => Ok(0),
            Some(place) => copy_name(listed_at(place), to),
        }
    }
}
