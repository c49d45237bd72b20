// One message, read token by token. A `Reader` is what has come of it: the lists and dictionaries
// that are open, and the part of the token that the last byte stands in. Both are changed in place.
// After a refusal a reader is not read on. It can be taken back.
ghost use Rattle.std.specs.Prelude.{◌≡◌, ℕ, ◌<◌, ◌≤◌, ◌+◌, List, length};
ghost use Rattle.std.specs.Prelude.{IfSome, OnOk, IfErr};
ghost use Rattle.bencode_wire.specs.Inside.Beginnings as beginnings;
ghost use Rattle.bencode_wire.specs.Inside.ByteEffects as effects;
ghost use Rattle.bencode_wire.specs.Inside.ByteSteps as steps;
ghost use Rattle.bencode_wire.specs.Inside.ByteSteps.{judged};
ghost use Rattle.bencode_wire.specs.Tree as tree;
ghost use Rattle.bencode_wire.specs.Spelling.{put_sorted};
ghost use Rattle.bencode_wire.specs.Inside.Reader.{open_view, token_view, cut_view, BeginsShort};
ghost use Rattle.bencode_wire.specs.Inside.Gives.{Yields, Steps, Refuses};
ghost use Rattle.bencode_wire.specs.Inside.GoingBack.{GoesBack};

use crate::begins::begin;
use crate::ben::Ben;
use crate::containers::bytes_of;
use crate::cut::{Frames, Mark, PartOfString, Reader, Refused, Token, TokenProgress};
use crate::digits::{integer_digits, integer_minus, integer_open, length_digits};
use crate::fault::WireFaultKind;
use crate::sign::Sign;
use std::alloc::Global;
use std::mem;

impl Reader {
    pub(crate) fn new(alloc: Global) -> Reader
        ensures { cut_view result ≡ steps.start }
    {
        Reader {
            frames: Frames::new(alloc),
            token: Token::Between,
            string: Vec::new(alloc),
            mark: Mark {
                token: Token::Between,
                come: 0,
            },
        }
    }

    // How many of the next bytes one step takes: one, or what is left of a string.
    pub(crate) fn run_len(&self, available: usize) -> usize
        requires { 0 < available }
        ensures some { 0 < result }
        ensures within { result ≤ available }
        ensures run { (string : List ℕ) → steps.TakesRun (token_view string self.now.token) result }
    {
        match self.token {
            Token::String(part) => part.left.min(available),
            Token::Between | Token::IntegerOpen | Token::IntegerMinus => 1,
            Token::IntegerDigits(_) | Token::Length(_) => 1,
        }
    }

    // Reads a run, whose length `run_len` gave. Gives the message if it is whole.
    pub(crate) fn step(
        &mut self,
        alloc: Global,
        limit: usize,
        run: &[u8],
    ) -> Result<Option<Ben>, WireFaultKind>
        requires some { 0 < length run.now }
        requires run { steps.TakesRun (token_view self.old.string.items self.old.token)
            (length run.now) }
        ensures reads { Steps (steps.within_limit limit (judged (steps.step_run put_sorted
            (open_view self.old.frames) (token_view self.old.string.items self.old.token)
            run.now))) self.new result }
        ensures back { GoesBack self.old self.new }
    {
        let sign = Sign::of(run[0]);
        match self.token {
            Token::String(part) => self.read_string(alloc, limit, part, run),
            Token::Between => {
                let progress = begin(alloc, &mut self.frames, sign);
                self.keep(limit, progress)
            }
            Token::IntegerOpen => self.keep(limit, integer_open(sign)),
            Token::IntegerMinus => self.keep(limit, integer_minus(sign)),
            Token::IntegerDigits(part) => {
                let progress = integer_digits(alloc, &mut self.frames, part, sign);
                self.keep(limit, progress)
            }
            Token::Length(len) => {
                let progress = length_digits(alloc, &mut self.frames, len, sign);
                self.keep(limit, progress)
            }
        }
    }

    // Reads a run of a string, into its value.
    fn read_string(
        &mut self,
        alloc: Global,
        limit: usize,
        part: PartOfString,
        run: &[u8],
    ) -> Result<Option<Ben>, WireFaultKind>
        requires some { 0 < length run.now }
        requires within { length run.now ≤ part.left }
        requires token { self.old.token ≡ Token.String part }
        ensures reads { Steps (steps.within_limit limit (judged (effects.text_bytes put_sorted
            (open_view self.old.frames) self.old.string.items part.left run.now)))
            self.new result }
        ensures back { GoesBack self.old self.new }
    {
        let come = self.string.len();
        self.string.extend_from_slice(run)?;
        if run.len() < part.left {
            let left = part.left - run.len();
            self.token = Token::String(PartOfString { left });
            return Ok(None);
        }
        let string = mem::replace(&mut self.string, Vec::new(alloc));
        match self.frames.put(alloc, Ben::String(string)) {
            Ok(progress) => self.keep(limit, Ok(progress)),
            Err(Refused { kind, value }) => {
                self.string = bytes_of(value);
                self.string.truncate(come);
                Err(kind)
            }
        }
    }

    // How long a string of one to nine bytes is that begins at `at`, where there is one and all
    // of it has come.
    pub(crate) fn short_len(&self, bytes: &[u8], at: usize, available: usize) -> Option<usize>
        requires { at + available ≤ length bytes.now }
        ensures begins { IfSome result (λ n. BeginsShort self.now bytes.now at n) }
        ensures within { IfSome result (λ n. 2 + n ≤ available) }
    {
        if available < 2 || bytes[at + 1] != b':' || self.frames.is_empty() {
            return None;
        }
        match self.token {
            Token::Between => short_len_of(Sign::of(bytes[at]), available - 2),
            Token::IntegerOpen | Token::IntegerMinus | Token::IntegerDigits(_) => None,
            Token::Length(_) | Token::String(_) => None,
        }
    }

    // Reads the bytes of such a string.
    pub(crate) fn read_short(&mut self, alloc: Global, string: &[u8]) -> Result<(), WireFaultKind>
        requires inside { 0 < length (open_view self.old.frames) }
        requires between { self.old.token ≡ Token.Between }
        ensures ok { OnOk result (judged (beginnings.put put_sorted (open_view self.old.frames)
            (tree.string string.now)) ≡ steps.reads (cut_view self.new)) }
        ensures err { IfErr result (λ e. Refuses (judged (beginnings.put put_sorted
            (open_view self.old.frames) (tree.string string.now))) e) }
        ensures back { GoesBack self.old self.new }
    {
        let string = Vec::from_slice(alloc, string)?;
        match self.frames.put(alloc, Ben::String(string)) {
            Ok(_) => Ok(()),
            Err(refused) => Err(refused.kind),
        }
    }

    // Goes on with a token, unless it is the digits of a length that is above the limit.
    fn keep(
        &mut self,
        limit: usize,
        progress: Result<TokenProgress, WireFaultKind>,
    ) -> Result<Option<Ben>, WireFaultKind>
        ensures reads { (j : steps.Judged) → Yields j (open_view self.old.frames) progress
            → Steps (steps.within_limit limit j) self.new result }
        ensures frames { self.new.frames ≡ self.old.frames }
        ensures mark { self.new.mark ≡ self.old.mark }
    {
        match progress {
            Ok(TokenProgress::Partial(token)) => {
                self.token = token;
                if is_large(limit, token) {
                    Err(WireFaultKind::TooLong)
                } else {
                    Ok(None)
                }
            }
            Ok(TokenProgress::OpenString(bytes, part)) => {
                self.string = bytes;
                self.token = Token::String(part);
                Ok(None)
            }
            Ok(TokenProgress::Whole(message)) => {
                self.token = Token::Between;
                Ok(Some(message))
            }
            Err(refusal) => Err(refusal),
        }
    }
}

fn short_len_of(sign: Sign, available: usize) -> Option<usize>
    ensures some { IfSome result (λ n. 0 < n) }
    ensures digit { IfSome result (λ n. sign ≡ Sign.Digit n) }
    ensures within { IfSome result (λ n. n ≤ available) }
{
    let Sign::Digit(digit) = sign else {
        return None;
    };
    let len = usize::from(digit);
    (0 < len && len <= available).then_some(len)
}

fn is_large(limit: usize, token: Token) -> bool
    ensures { (string : List ℕ) → result ≡ steps.is_large_token limit (token_view string token) }
{
    match token {
        Token::Length(len) => limit < len,
        Token::Between | Token::IntegerOpen | Token::IntegerMinus => false,
        Token::IntegerDigits(_) | Token::String(_) => false,
    }
}
