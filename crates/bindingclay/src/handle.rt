//! A boxed kernel as a struct of one pointer that C holds, whose type names no other type.
ghost use Rattle.std.specs.Prelude.{◌≡◌, None};
ghost use Rattle.bindingclay.specs.declared.layer.Layer.{Layer};
ghost use Rattle.bindingclay.specs.Made.{Says, Wants};
ghost use Rattle.bindingclay.specs.Owned.{layer_coded, layer_owns};

mod parts;

use crate::layer::{Heap, Layer};
use parts::Parts;
use pl_model::Step;
use pl_numbers::Answer;
use std::alloc::Global;
use std::marker::Model;

#[repr(C)]
pub struct Handle {
    ptr: *mut u8,
    alloc: Global,
    ghost layer: { Layer } by { layer_coded },
}

impl Model for Handle {
    ghost also_owns = { λ s. layer_owns s.alloc s.ptr s.layer };
}

impl Handle {
    /// The layer, which C keeps by the handle.
    #[inline(always)]
    pub fn layer(self) -> &'static mut Layer
        ensures { result.now ≡ self.layer }
    {
        Box::leak(self.into_box())
    }

    /// The layer, which C gives up with the handle.
    pub fn into_box(self) -> Box<Layer>
        ensures { result.value ≡ self.layer }
    {
        self.into_parts().into_box()
    }

    fn into_parts(self) -> Parts<Layer, Global>
        ensures { result.value ≡ self.layer }
    {
        let Handle { ptr, alloc } = self;
        Parts {
            ptr: ptr as *mut Layer,
            alloc,
        }
    }

    /// Makes one step of the kernel.
    #[inline(always)]
    pub fn step(self, step: Step<Heap>) -> Answer
        ensures says { Says self.layer.kernel step.entry result }
        ensures wants { self.layer.recorder ≡ None → Wants self.layer.kernel step.entry result }
    {
        self.layer().step(step)
    }
}

unsafe impl Send for Handle {}
