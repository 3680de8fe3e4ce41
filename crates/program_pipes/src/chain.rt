//! The programs of a chain.
ghost use Rattle.std.specs.Prelude.{◌≡◌};
ghost use Rattle.std.specs.Option.{option_map};
ghost use Rattle.program_pipes.specs.Chains.{chain_in, sole_backend};
ghost use Rattle.program_pipes.specs.ChainViews.{chain_view};

use program_lists::{ListedBackend, ListedFilter, ProgramList};

/// The filters of a chain in order, and the backend after them.
#[derive(Clone, Copy)]
pub struct Chain<'a> {
    pub filters: &'a [ListedFilter],
    pub backend: &'a ListedBackend,
}

/// Returns the chain of a file's programs. It has one backend, which runs as the same user as the filters, and no program of the side channel.
pub fn chain_of(list: &ProgramList) -> Option<Chain<'_>>
    ensures { option_map chain_view result ≡ chain_in list.now }
{
    if list.side().is_some() {
        return None;
    }
    let backend = sole_backend(list.backends())?;
    Some(Chain {
        filters: list.filters(),
        backend,
    })
}

fn sole_backend(backends: &[ListedBackend]) -> Option<&ListedBackend>
    ensures { option_map (λ backend. backend.now) result ≡ sole_backend backends.now }
{
    match backends {
        [backend] if !backend.program.keeps_user => Some(backend),
        _ => None,
    }
}
