ghost use Rattle.std.specs.Prelude.{◌≡◌};
ghost use Rattle.row_effects.specs.EffectFold.{pages_after, pages_by};

use spool_types::Effect;

/// Returns the pages of a job after these effects. `pages` is the number before them.
pub fn pages_after(pages: u32, effects: &[Effect]) -> u32
    ensures { result ≡ pages_after effects.now pages }
{
    let mut after = pages;
    for effect in effects {
        after = pages_by(after, effect);
    }
    after
}

fn pages_by(pages: u32, effect: &Effect) -> u32
    ensures { result ≡ pages_by pages effect.now }
{
    match effect {
        Effect::Pages { copies, .. } => pages.saturating_add(*copies),
        Effect::TotalPages(total) => *total,
        _ => pages,
    }
}
