//! Values that are held, without copies of the elements of tensors.
ghost use Rattle.std.specs.Prelude.{◌≡◌, IfOk, IfSome, true};
ghost use Rattle.std.specs.Option.{option_copied};
ghost use Rattle.xf_eval_values.specs.Held.{elem_of, scalar_of, tensor_of, as_value};
ghost use Rattle.xf_sem.specs.Tensors.{width_of, shape_of};
ghost use Rattle.xf_type.specs.Integers.{FitsWidth};
ghost use Rattle.xf_sem.specs.Values.{IsValue, is_value, fits_type};
ghost use Rattle.xf_sem.specs.Meaning.{no_value};
ghost use Rattle.xf_sem.specs.declared.value.Value.TheVariants as value_of;

use crate::fits::{fits_scalar, fits_tensor};
use std::alloc::Global;
use std::marker::Model;
use std::rc::Rc;
use xf_sem::{ElemList, SizeList, Value};
use xf_type::{Elem, ListOf, NoMemory, PayloadType, Width, same_width};

/// A tensor: its sizes, and its elements in row-major order.
#[derive(Drop)]
pub struct Tensor {
    pub width: Width,
    pub shape: SizeList,
    pub elems: ElemList,
}

#[derive(Drop)]
enum Item {
    Scalar(Width, Elem),
    Shared(Rc<Tensor>),
}

/// A value. What holds the same tensor shares it.
#[derive(Drop)]
pub struct Held {
    item: Item,
}

/// Values, in order.
pub type HeldList = ListOf<Held>;

impl Model for Held {
    ghost use Rattle.xf_sem.specs.declared.value.Value.{Value as SemValue};
    ghost use Rattle.xf_sem.specs.Values.{IsValue};
    ghost use Rattle.xf_eval_values.specs.Held.{seen_item};

    ghost Value = { SemValue };

    ghost view = { λ h. seen_item h.item };

    ghost invariant = { λ h. IsValue (seen_item h.item) };
}

/// The tensor, moved where nothing shares it, and else a copy of it.
fn unshared(alloc: Global, shared: Rc<Tensor>) -> Result<Tensor, NoMemory>
    ensures { IfOk result (λ tensor. tensor ≡ shared.value) }
{
    match Rc::try_unwrap(shared) {
        Ok(tensor) => Ok(tensor),
        Err(shared) => Ok(Tensor {
            width: shared.width,
            shape: ListOf::from_slice(alloc, shared.shape.as_slice())?,
            elems: ListOf::from_slice(alloc, shared.elems.as_slice())?,
        }),
    }
}

impl Held {
    /// A scalar.
    pub fn scalar(width: Width, elem: Elem) -> Held
        requires { FitsWidth width elem }
        ensures { result ≡ value_of.Scalar width elem }
    {
        Held {
            item: Item::Scalar(width, elem),
        }
    }

    /// A tensor. Refuses for want of memory alone.
    pub fn tensor(alloc: Global, tensor: Tensor) -> Result<Held, NoMemory>
        requires { IsValue (value_of.Tensor tensor.width tensor.shape tensor.elems) }
        ensures { IfOk result (λ h. h ≡ value_of.Tensor tensor.width tensor.shape tensor.elems) }
    {
        let shared = Rc::new(alloc, tensor)?;
        Ok(Held {
            item: Item::Shared(shared),
        })
    }

    /// The same value, which shares the elements. Refuses for want of memory alone.
    pub fn share(&self) -> Result<Held, NoMemory>
        ensures { IfOk result (λ h. h ≡ self.now) }
    {
        match &self.item {
            Item::Scalar(width, elem) => Ok(Held {
                item: Item::Scalar(*width, *elem),
            }),
            Item::Shared(tensor) => Ok(Held {
                item: Item::Shared(tensor.clone()?),
            }),
        }
    }

    /// The element of a scalar of that width.
    pub fn elem(&self, wanted: Width) -> Option<Elem>
        ensures value { result ≡ elem_of wanted self.now }
        ensures fits { IfSome result (λ e. FitsWidth wanted e) }
    {
        match &self.item {
            Item::Scalar(width, elem) => {
                if same_width(*width, wanted) {
                    Some(*elem)
                } else {
                    None
                }
            }
            Item::Shared(_) => None,
        }
    }
}

impl Held {
    /// A copy of a value. Refuses for want of memory alone.
    pub fn of(alloc: Global, value: &Value) -> Result<Held, NoMemory>
        requires { IsValue value.now }
        ensures { IfOk result (λ held. held ≡ value.now) }
    {
        match value {
            Value::Scalar { width, elem } => Ok(Held::scalar(*width, *elem)),
            Value::Tensor {
                width,
                shape,
                elems,
            } => {
                let shape = ListOf::from_slice(alloc, shape.as_slice())?;
                let elems = ListOf::from_slice(alloc, elems.as_slice())?;
                Held::tensor(
                    alloc,
                    Tensor {
                        width: *width,
                        shape,
                        elems,
                    },
                )
            }
        }
    }

    /// The value, whose elements are moved where nothing shares them. Refuses for want of memory alone.
    pub fn into_value(self, alloc: Global) -> Result<Value, NoMemory>
        ensures { IfOk result (λ value. value ≡ self) }
    {
        let Held { item } = self;
        match item {
            Item::Scalar(width, elem) => Ok(Value::Scalar { width, elem }),
            Item::Shared(shared) => {
                let Tensor {
                    width,
                    shape,
                    elems,
                } = unshared(alloc, shared)?;
                Ok(Value::Tensor {
                    width,
                    shape,
                    elems,
                })
            }
        }
    }

    /// The tensor, whose elements are moved where nothing shares them; a scalar is none. Refuses for want of memory
    /// alone.
    pub fn into_tensor(self, alloc: Global) -> Result<Option<Tensor>, NoMemory>
        ensures parts { IfOk result (λ parts. parts ≡ tensor_of self) }
        ensures is_value { IfOk result (λ parts. IfSome parts (λ t. IsValue (as_value t))) }
    {
        let Held { item } = self;
        match item {
            Item::Scalar(_, _) => Ok(None),
            Item::Shared(shared) => Ok(Some(unshared(alloc, shared)?)),
        }
    }

    /// The tensor; a scalar is none.
    pub fn as_tensor(&self) -> Option<&Tensor>
        ensures parts { option_copied result ≡ tensor_of self.now }
        ensures is_value { IfSome result (λ t. IsValue (as_value t.now)) }
    {
        match &self.item {
            Item::Scalar(_, _) => None,
            Item::Shared(shared) => Some(&**shared),
        }
    }

    /// The element of a scalar; a tensor is none.
    pub fn as_scalar(&self) -> Option<Elem>
        ensures elem { result ≡ scalar_of self.now }
        ensures fits { IfSome result (λ elem. FitsWidth (width_of self.now) elem) }
    {
        match &self.item {
            Item::Scalar(_, elem) => Some(*elem),
            Item::Shared(_) => None,
        }
    }

    /// It is a value, whatever it holds: nothing is done.
    pub fn is_value(&self)
        ensures { IsValue self.now }
    {
        match &self.item {
            Item::Scalar(_, _) => {}
            Item::Shared(_) => {}
        }
    }

    /// The width.
    pub fn width(&self) -> Width
        ensures { result ≡ width_of self.now }
    {
        match &self.item {
            Item::Scalar(width, _) => *width,
            Item::Shared(shared) => shared.width,
        }
    }

    /// The sizes; a scalar has none.
    pub fn sizes(&self) -> &[u32]
        ensures { result.now ≡ shape_of self.now }
    {
        match &self.item {
            Item::Scalar(_, _) => &[],
            Item::Shared(shared) => shared.shape.as_slice(),
        }
    }

    /// Whether it fits the type; it is a value of its width always.
    pub fn fits(&self, wanted: &PayloadType) -> bool
        ensures fits { result ≡ fits_type self.now wanted.now }
        ensures is_value { is_value self.now ≡ true }
    {
        match &self.item {
            Item::Scalar(width, _) => fits_scalar(*width, wanted),
            Item::Shared(tensor) => fits_tensor(tensor.width, tensor.shape.as_slice(), wanted),
        }
    }

    /// What holds no number, where nothing is defined.
    pub fn nothing() -> Held
        ensures { result ≡ no_value }
    {
        Held::scalar(Width::I1, Elem::NoNumber)
    }
}
