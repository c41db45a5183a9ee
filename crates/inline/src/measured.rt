ghost use Rattle.std.specs.Prelude.{◌≡◌, ◌+◌, ◌*◌, max};
ghost use Rattle.inline.specs.Measured.{counted_size};
ghost use Rattle.inline.specs.Below.{counted};

use language::Parameter;

/// How large code is. The greatest number stands for those above it too: what is never reached may be larger than a
/// number tells.
#[derive(Clone, Copy)]
pub struct FlatSize {
    pub nodes: u64,
    /// The words, of 4 bytes each, that it declares.
    pub words: u64,
    /// How many bodies are open in it at once.
    pub bodies: u64,
}

impl FlatSize {
    /// Of code in which no body is open.
    pub fn of(nodes: u64, words: u64) -> FlatSize
        ensures { result ≡ counted_size nodes words 0 }
    {
        FlatSize {
            nodes,
            words,
            bodies: 0,
        }
    }

    /// With so many nodes and words more.
    pub fn with(self, nodes: u64, words: u64) -> FlatSize
        ensures { result ≡ counted_size (self.nodes + nodes) (self.words + words) self.bodies }
    {
        FlatSize {
            nodes: self.nodes.saturating_add(nodes),
            words: self.words.saturating_add(words),
            bodies: self.bodies,
        }
    }

    /// The bytes that it declares.
    pub fn declared_bytes(self) -> u64
        ensures { result ≡ counted (4 * self.words) }
    {
        self.words.saturating_mul(4)
    }

    /// Of this and of what stands behind it.
    pub fn and(self, behind: FlatSize) -> FlatSize
        ensures { result
            ≡ counted_size (self.nodes + behind.nodes) (self.words + behind.words) (max self.bodies behind.bodies) }
    {
        FlatSize {
            bodies: self.bodies.max(behind.bodies),
            ..self.with(behind.nodes, behind.words)
        }
    }
}

/// A procedure where it is called: its parameters, and the size of its body with its word parameters.
#[derive(Clone, Copy)]
pub struct Measured<'s> {
    pub parameters: &'s [Parameter],
    pub size: FlatSize,
}
