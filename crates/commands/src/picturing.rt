// The picture of an image's runs.

ghost use Rattle.std.specs.Prelude.{◌≡◌, ◌++◌, ◌⊎◌, ℕ, List, [], false, map, IsTrue, IfOk, IfErr, OnErr, OnOk};
ghost use Rattle.std.specs.String.{string_bytes};
ghost use Rattle.commands.specs.Answered.{Finds, IsRead};
ghost use Rattle.commands.specs.Below.{collected, HasLines, IsImage, params_of, Reaches};
ghost use Rattle.commands.specs.Certificates.{PrintsCertificate, StandsInCode};
ghost use Rattle.commands.specs.Pairs.{pairing_text};
ghost use Rattle.commands.specs.Pictures.{PicturesOne, PicturesTwo, PicturesImage, RefusesOne, RefusesTwo};
ghost use Rattle.commands.specs.Pictures.{asked_text, before_certificate, before_pairing, RefusesLists};
ghost use Rattle.commands.specs.Progress.{FilePictureTells, ListsTell, OneListTells, TwoListsTell};

use crate::answer::Answer;
use crate::certifying::text_of;
use crate::fault::Fault;
use crate::files::Files;
use crate::images::{both_args, image_with_params, pairing_line};
use crate::telling::pair_telling;
use command_line::Request;
use hepurita::RunFault;
use image::Image;
use image_reports::certificates::{Certificate, Shifts, certify_telling, read_given};
use image_reports::image_pictures::{Caption, picture_of_given, picture_of_pair};
use language::Param;
use rv_machine::Pairing;
use std::alloc::{AllocError, Global};
use streams::{Sink, SinkFault};

/// What is said before a certificate.
const BEFORE_CERTIFICATE: &[u8] =
    b"One run, with 0 for each ?. For all values of each ?, certify says:\n";

/// What is said before a comparison.
const BEFORE_PAIRING: &[u8] = b"Two runs, one over the other. pair says:\n";

/// Takes lines of progress that are not asked for, and keeps nothing.
#[derive(Drop)]
struct Unasked;

impl Sink for Unasked {
    const TELLS: bool = false;

    ghost TELLS = { false };

    ghost taken = { λ _. [] };

    ghost failures = { λ _. 0 };

    fn put(&mut self, bytes: &[u8]) -> Result<usize, SinkFault> {
        Ok(bytes.len())
    }
}

/// The page of an image's runs: as many words as parameters are one list of arguments, where `?` stands for any value
/// of a secret parameter, and others are two lists, of which the first half is the first. How many steps the runs have
/// made goes to `err`, where that is asked for.
pub fn picture_image<'a, F: Files, E: Sink>(
    alloc: Global,
    path: &'a str,
    arguments: &'a [&'a str],
    progress: bool,
    files: &mut F,
    err: &mut E,
) -> Result<Answer, Fault<'a>>
    ensures finds { IsTrue F.TELLS
        → Finds (Request.Picture path.entry arguments.entry progress) (F.store files.old).contents result }
    ensures told { IsTrue F.TELLS → IsTrue E.TELLS
        → OnOk result (FilePictureTells HasLines progress (F.store files.old).contents path.now
        (map (λ word. word.now) arguments.now) (collected (E.taken err.old) (E.failures err.old))
        (collected (E.taken err.new) (E.failures err.new))) }
    ensures part { IsTrue F.TELLS → IsTrue E.TELLS → OnErr result ((err.new ≡ err.old)
        ⊎ FilePictureTells Reaches progress (F.store files.old).contents path.now
        (map (λ word. word.now) arguments.now) (collected (E.taken err.old) (E.failures err.old))
        (collected (E.taken err.new) (E.failures err.new))) }
    ensures read { IsRead result (F.store files.old) (F.store files.new) }
{
    let (image, params) = image_with_params(alloc, path, files)?;
    let params = params.as_slice();
    if progress {
        let page = picture_of_lists(alloc, &image, params, path, arguments, err)?;
        return Ok(Answer::of_bytes(page));
    }
    let page = picture_of_lists(alloc, &image, params, path, arguments, &mut Unasked)?;
    Ok(Answer::of_bytes(page))
}

/// What was asked for: the path, and behind it each argument with a blank before it.
fn asked_text(alloc: Global, path: &str, arguments: &[&str]) -> Result<String, AllocError>
    ensures { IfOk result (λ text.
        string_bytes text ≡ asked_text path.now (map (λ word. word.now) arguments.now)) }
{
    let mut text = String::from_str(alloc, path)?;
    for word in arguments {
        text.push_str(" ")?;
        text.push_str(word)?;
    }
    Ok(text)
}

/// What is said of a certificate.
fn said_of_certificate(
    alloc: Global,
    image: &Image,
    certificate: Certificate,
) -> Result<Vec<u8>, AllocError>
    requires { StandsInCode image.now certificate }
    ensures { IfOk result (λ said. (told : List ℕ) × PrintsCertificate image.now certificate told
        × (said.items ≡ before_certificate ++ told)) }
{
    let told = text_of(alloc, image, certificate)?;
    let mut said = Vec::from_slice(alloc, BEFORE_CERTIFICATE)?;
    said.extend_from_slice(told.as_slice())?;
    Ok(said)
}

/// What is said of a comparison.
fn said_of_pairing(alloc: Global, pairing: Pairing) -> Result<Vec<u8>, AllocError>
    ensures { IfOk result (λ said. said.items ≡ before_pairing ++ pairing_text pairing) }
{
    let told = pairing_line(alloc, pairing)?;
    let mut said = Vec::from_slice(alloc, BEFORE_PAIRING)?;
    said.extend_from_slice(told.as_bytes())?;
    Ok(said)
}

/// The page of one list of arguments, or of two. Lines of progress go out of all runs that are made for it.
fn picture_of_lists<E: Sink>(
    alloc: Global,
    image: &Image,
    params: &[Param],
    path: &str,
    arguments: &[&str],
    err: &mut E,
) -> Result<Vec<u8>, RunFault>
    requires allowed { IsImage image.now }
    requires params { params.now ≡ params_of image.now }
    ensures said { IfOk result (λ page.
        PicturesImage image.now path.now (map (λ word. word.now) arguments.now) page.items) }
    ensures refused { IfErr result (RefusesLists image.now (map (λ word. word.now) arguments.now)) }
    ensures told { IsTrue E.TELLS → OnOk result (ListsTell HasLines image.now (map (λ word. word.now) arguments.now)
        (collected (E.taken err.old) (E.failures err.old)) (collected (E.taken err.new) (E.failures err.new))) }
    ensures part { IsTrue E.TELLS → OnErr result ((err.new ≡ err.old)
        ⊎ ListsTell Reaches image.now (map (λ word. word.now) arguments.now)
        (collected (E.taken err.old) (E.failures err.old)) (collected (E.taken err.new) (E.failures err.new))) }
{
    if arguments.len() == params.len() {
        picture_of_one(alloc, image, params, path, arguments, err)
    } else {
        picture_of_two(alloc, image, params, path, arguments, err)
    }
}

/// The page of one list of arguments.
fn picture_of_one<E: Sink>(
    alloc: Global,
    image: &Image,
    params: &[Param],
    path: &str,
    arguments: &[&str],
    err: &mut E,
) -> Result<Vec<u8>, RunFault>
    requires allowed { IsImage image.now }
    requires params { params.now ≡ params_of image.now }
    ensures said { IfOk result (λ page.
        PicturesOne image.now path.now (map (λ word. word.now) arguments.now) page.items) }
    ensures refused { IfErr result (RefusesOne image.now (map (λ word. word.now) arguments.now)) }
    ensures told { IsTrue E.TELLS → OnOk result (OneListTells HasLines image.now (map (λ word. word.now) arguments.now)
        (collected (E.taken err.old) (E.failures err.old)) (collected (E.taken err.new) (E.failures err.new))) }
    ensures part { IsTrue E.TELLS → OnErr result ((err.new ≡ err.old)
        ⊎ OneListTells Reaches image.now (map (λ word. word.now) arguments.now)
        (collected (E.taken err.old) (E.failures err.old)) (collected (E.taken err.new) (E.failures err.new))) }
{
    let given = read_given(alloc, params, arguments)?;
    let given = given.as_slice();
    let asked = asked_text(alloc, path, arguments)?;
    let certificate = certify_telling(alloc, image, given, Shifts::Hidden, err)?;
    let said = said_of_certificate(alloc, image, certificate)?;
    let caption = Caption {
        asked: asked.as_str(),
        said: said.as_slice(),
    };
    let page = picture_of_given(alloc, image, given, &caption, err)?;
    Ok(page)
}

/// The page of two lists of arguments.
fn picture_of_two<E: Sink>(
    alloc: Global,
    image: &Image,
    params: &[Param],
    path: &str,
    arguments: &[&str],
    err: &mut E,
) -> Result<Vec<u8>, RunFault>
    requires allowed { IsImage image.now }
    requires params { params.now ≡ params_of image.now }
    ensures said { IfOk result (λ page.
        PicturesTwo image.now path.now (map (λ word. word.now) arguments.now) page.items) }
    ensures refused { IfErr result (RefusesTwo image.now (map (λ word. word.now) arguments.now)) }
    ensures told { IsTrue E.TELLS → OnOk result (TwoListsTell HasLines image.now (map (λ word. word.now) arguments.now)
        (collected (E.taken err.old) (E.failures err.old)) (collected (E.taken err.new) (E.failures err.new))) }
    ensures part { IsTrue E.TELLS → OnErr result ((err.new ≡ err.old)
        ⊎ TwoListsTell Reaches image.now (map (λ word. word.now) arguments.now)
        (collected (E.taken err.old) (E.failures err.old)) (collected (E.taken err.new) (E.failures err.new))) }
{
    let (one, other) = both_args(alloc, params, arguments)?;
    let asked = asked_text(alloc, path, arguments)?;
    let pairing = pair_telling(alloc, image, &one, &other, err)?;
    let said = said_of_pairing(alloc, pairing)?;
    let caption = Caption {
        asked: asked.as_str(),
        said: said.as_slice(),
    };
    let page = picture_of_pair(alloc, image, &one, &other, &caption, err)?;
    Ok(page)
}
