// The levels and the lists of a site, under numbers.
ghost use Rattle.std.specs.Prelude.{◌≡◌, ◌+◌, length, Some, slice_get, option_map, IfOk};
ghost use Rattle.conf_block.specs.Forest.{forest_of};
ghost use Rattle.conf_inherit.specs.Values.{stated, over, defaults as default_values};
ghost use Rattle.conf_inherit.specs.Pools.{Keeps, KeepsAll, Fits, none_shared, FitsLists, values_by};

use crate::entries::{types_beside, types_of};
use crate::level::{Inherited, defaults, stated_over};
use crate::shared::{keep, next_number, share};
use crate::shelf::Shelf;
use byte_text::OutOfMemory;
use conf_block::has_named;
use conf_text::Directive;
use file_type::Types;
use ngx_pattern::PatternSet;
use site_model::Level;
use std::alloc::Global;

/// The levels and the lists so far.
#[derive(Drop)]
pub struct Pool {
    pub levels: Vec<Level>,
    pub shelf: Shelf,
}

impl Pool {
    /// The default media types, under the number 0, and no other list.
    pub fn new(alloc: Global) -> Result<Pool, OutOfMemory>
        ensures types { IfOk result (λ pool. slice_get pool.shelf.types.items 0
            ≡ Some default_values.types) }
        ensures lists { IfOk result (λ pool. FitsLists pool.shelf none_shared) }
    {
        let mut types = Vec::new(alloc);
        types.push(types_of(alloc, defaults())?)?;
        let shelf = Shelf {
            types,
            indexes: Vec::new(alloc),
            pages: Vec::new(alloc),
            rules: Vec::new(alloc),
            auth_sets: Vec::new(alloc),
            media: Vec::new(alloc),
            patterns: PatternSet::new(alloc),
        };
        let levels = Vec::new(alloc);
        Ok(Pool { levels, shelf })
    }

    /// Keeps a level, and gives its number.
    pub fn add_level(&mut self, level: Level) -> Result<u32, OutOfMemory>
        ensures there { IfOk result (λ n. slice_get self.new.levels.items n ≡ Some level) }
        ensures number { IfOk result (λ n. n ≡ length self.old.levels.items) }
        ensures count { IfOk result (λ n.
            length self.new.levels.items ≡ length self.old.levels.items + 1) }
        ensures levels { IfOk result (λ n. Keeps self.old.levels.items self.new.levels.items) }
        ensures shelf { IfOk result (λ n. self.new.shelf ≡ self.old.shelf) }
    {
        let number = next_number(self.levels.len())?;
        self.levels.push(level)?;
        Ok(number)
    }

    fn add_types(&mut self, types: Types) -> Result<u32, OutOfMemory>
        ensures there { IfOk result (λ n. slice_get self.new.shelf.types.items n ≡ Some types) }
        ensures levels { IfOk result (λ n. self.new.levels.items ≡ self.old.levels.items) }
        ensures kept { IfOk result (λ n. KeepsAll self.old.shelf self.new.shelf) }
    {
        let number = keep(&mut self.shelf.types, types)?;
        Ok(number)
    }

    /// The values of a level, by what its block states over those around it. A block that states a list gets one of its own, and
    /// any other shares the list around it.
    pub fn inner<'a>(
        &mut self,
        alloc: Global,
        prefix: Option<&'a [u8]>,
        block: &'a [Directive],
        outer: Inherited<'a>,
    ) -> Result<Inherited<'a>, OutOfMemory>
        requires { Fits self.old.shelf outer }
        ensures values { IfOk result (λ inner. values_by inner ≡ over
            (stated (option_map (λ t. t.now) prefix.entry) (forest_of block.now))
            (values_by outer.entry)) }
        ensures there { IfOk result (λ inner. Fits self.new.shelf inner) }
        ensures levels { IfOk result (λ inner. self.new.levels.items ≡ self.old.levels.items) }
        ensures shelf { IfOk result (λ inner. KeepsAll self.old.shelf self.new.shelf) }
    {
        let lists = share(alloc, &mut self.shelf, block, outer.lists)?;
        let inner = stated_over(prefix, block, lists, outer);
        if has_named(block, b"types") {
            let types = self.add_types(types_of(alloc, inner)?)?;
            return Ok(Inherited { types, ..inner });
        }
        if !has_named(block, b"default_type") {
            return Ok(inner);
        }
        let types = types_beside(alloc, self.shelf.types.as_slice(), inner)?;
        let types = self.add_types(types)?;
        Ok(Inherited { types, ..inner })
    }
}
