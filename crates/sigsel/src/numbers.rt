ghost use Rattle.std.specs.Prelude.{◌≡◌, IfOk};

use linx_base::{NoMemory, TryCopy};
use std::marker::Model;
use std::sync::Arc;

/// Signal numbers in order. They never change, and copies share them.
#[derive(Drop)]
pub struct Numbers {
    listed: Arc<Vec<u32>>,
}

impl Model for Numbers {
    ghost use Rattle.std.specs.Prelude.{List, ℕ};
    ghost use Rattle.std.specs.Arc.{arc_value};

    ghost Value = { List ℕ };

    ghost view = { λ n. (arc_value n.listed).items };
}

impl Numbers {
    /// These numbers, which are not copied. A refusal frees them.
    pub fn of(listed: Vec<u32>) -> Result<Numbers, NoMemory>
        ensures { IfOk result (λ numbers. numbers ≡ listed.items) }
    {
        Ok(Numbers {
            listed: Arc::new(*listed.allocator(), listed)?,
        })
    }

    /// The numbers, in the order in which they were listed.
    pub fn as_slice(&self) -> &[u32]
        ensures { result.now ≡ self.now }
    {
        self.listed.as_slice()
    }
}

impl TryCopy for Numbers {
    fn copy(&self) -> Result<Numbers, NoMemory> {
        Ok(Numbers {
            listed: self.listed.clone()?,
        })
    }
}
