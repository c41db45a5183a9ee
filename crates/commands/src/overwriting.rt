// Which file a request would write over, though it reads it, by another path: that the paths differ is known already.

use crate::files::Files;
use command_line::Request;

/// Whether a path leads to one of the files that a source is read from.
fn is_read<F: Files>(files: &F, path: &str, libraries: &[&str], file: &str) -> bool {
    files.is_one_file(path, file)
        || libraries
            .iter()
            .any(|library| files.is_one_file(path, library))
}

/// The path that a request writes to, if it leads to a file that the request reads, or to the other that it writes.
pub fn overwritten<'a, F: Files>(files: &F, request: &Request<'a>) -> Option<&'a str> {
    match request {
        Request::Build {
            libraries,
            file,
            image,
            ..
        } => is_read(files, image, libraries, file).then_some(*image),
        Request::Function {
            libraries,
            file,
            assembler,
            header,
            ..
        } => {
            if is_read(files, assembler, libraries, file) {
                return Some(*assembler);
            }
            let lost = is_read(files, header, libraries, file)
                || files.is_one_file(header, assembler);
            lost.then_some(*header)
        }
        Request::Wrap {
            file,
            code,
            image,
            ..
        } => {
            let lost = files.is_one_file(image, file) || files.is_one_file(image, code);
            lost.then_some(*image)
        }
        _ => None,
    }
}
