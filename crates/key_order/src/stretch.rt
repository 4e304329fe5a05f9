//! The elements of one resource, and those of one namespace of it.
ghost use Rattle.std.specs.Prelude.{◌≡◌, filter};
ghost use Rattle.key_order.specs.Order.{AreInKeyOrder};
ghost use Rattle.key_order.specs.Stretches.{is_of, is_inside, side_of, side_inside, AreBounds};

use crate::keyed::Keyed;
use object_journal::Key;
use std::cmp::Ordering;

// On which side of the keys of the group and resource the key is, or whether it is one of them.
fn side_of(key: &Key, group: &[u8], resource: &[u8]) -> Ordering
    ensures { result ≡ side_of group.now resource.now key.now }
{
    key.group
        .bytes()
        .cmp(group)
        .then(key.resource.bytes().cmp(resource))
}

// On which side of the keys of the group, resource and namespace the key is, or whether it is one of them.
fn side_inside(key: &Key, group: &[u8], resource: &[u8], namespace: &[u8]) -> Ordering
    ensures { result ≡ side_inside group.now resource.now namespace.now key.now }
{
    side_of(key, group, resource).then(key.namespace.bytes().cmp(namespace))
}

// Where the elements of the group and resource start and end.
fn bounds_of<T: Keyed>(items: &[T], group: &[u8], resource: &[u8]) -> (usize, usize)
    requires { AreInKeyOrder T.key_of items.now }
    ensures { AreBounds (λ x. side_of group.now resource.now (T.key_of x))
        items.now result.0 result.1 }
{
    let start = items.partition_point(|x| side_of(x.key(), group, resource).is_lt());
    let end = items.partition_point(|x| side_of(x.key(), group, resource).is_le());
    (start, end)
}

/// The elements of the group and resource, which stand together, since the elements are in key order.
pub fn of_resource<'a, T: Keyed>(items: &'a [T], group: &[u8], resource: &[u8]) -> &'a [T]
    requires { AreInKeyOrder T.key_of items.now }
    ensures { result.now ≡ filter (λ x. is_of group.now resource.now (T.key_of x)) items.now }
{
    let (start, end) = bounds_of(items, group, resource);
    &items[start..end]
}

// Where the elements of the group, resource and namespace start and end.
fn bounds_inside<T: Keyed>(
    items: &[T],
    group: &[u8],
    resource: &[u8],
    namespace: &[u8],
) -> (usize, usize)
    requires { AreInKeyOrder T.key_of items.now }
    ensures { AreBounds (λ x. side_inside group.now resource.now namespace.now (T.key_of x))
        items.now result.0 result.1 }
{
    let start = items.partition_point(|x| side_inside(x.key(), group, resource, namespace).is_lt());
    let end = items.partition_point(|x| side_inside(x.key(), group, resource, namespace).is_le());
    (start, end)
}

/// The elements of the group, resource and namespace, which stand together, since the elements are in key order.
pub fn inside<'a, T: Keyed>(
    items: &'a [T],
    group: &[u8],
    resource: &[u8],
    namespace: &[u8],
) -> &'a [T]
    requires { AreInKeyOrder T.key_of items.now }
    ensures { result.now
        ≡ filter (λ x. is_inside group.now resource.now namespace.now (T.key_of x)) items.now }
{
    let (start, end) = bounds_inside(items, group, resource, namespace);
    &items[start..end]
}
