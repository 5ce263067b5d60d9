//! The classes that every program has without declaring them, and their methods.

ghost use Rattle.std.specs.Prelude.{◌≡◌, map, IfOk};
ghost use Rattle.std.specs.List.{list_any};
ghost use Rattle.api_listing.specs.BuiltIn.{class_of_row, built_in_classes, is_row, is_built_in};

use crate::types::ListedClass;
use crate::words::is_text;
use mon_base::{Bytes, List, NoMemory};
use std::alloc::Global;

/// Each class with its superclass; Object has none.
pub static CLASSES: [(&str, &str); 20] = [
    ("java/lang/Object", ""),
    ("java/lang/Class", "java/lang/Object"),
    ("java/lang/String", "java/lang/Object"),
    ("java/lang/System", "java/lang/Object"),
    ("java/lang/Thread", "java/lang/Object"),
    ("java/lang/Throwable", "java/lang/Object"),
    ("java/lang/Runnable", "java/lang/Object"),
    ("java/lang/Exception", "java/lang/Throwable"),
    ("java/lang/RuntimeException", "java/lang/Exception"),
    ("java/lang/InterruptedException", "java/lang/Exception"),
    (
        "java/lang/NullPointerException",
        "java/lang/RuntimeException",
    ),
    (
        "java/lang/ArithmeticException",
        "java/lang/RuntimeException",
    ),
    ("java/lang/ClassCastException", "java/lang/RuntimeException"),
    (
        "java/lang/ArrayStoreException",
        "java/lang/RuntimeException",
    ),
    (
        "java/lang/NegativeArraySizeException",
        "java/lang/RuntimeException",
    ),
    (
        "java/lang/IllegalMonitorStateException",
        "java/lang/RuntimeException",
    ),
    (
        "java/lang/IndexOutOfBoundsException",
        "java/lang/RuntimeException",
    ),
    (
        "java/lang/IllegalArgumentException",
        "java/lang/RuntimeException",
    ),
    (
        "java/lang/ArrayIndexOutOfBoundsException",
        "java/lang/IndexOutOfBoundsException",
    ),
    (
        "java/lang/IllegalThreadStateException",
        "java/lang/IllegalArgumentException",
    ),
];

/// Each method: its class, its name, its descriptor, and whether it is static.
pub static METHODS: [(&str, &str, &str, bool); 37] = [
    ("java/lang/Object", "<init>", "()V", false),
    ("java/lang/Thread", "<init>", "()V", false),
    (
        "java/lang/Thread",
        "<init>",
        "(Ljava/lang/Runnable;)V",
        false,
    ),
    ("java/lang/Thread", "start", "()V", false),
    ("java/lang/Thread", "run", "()V", false),
    ("java/lang/Thread", "join", "()V", false),
    ("java/lang/Runnable", "run", "()V", false),
    ("java/lang/System", "exit", "(I)V", true),
    ("java/lang/String", "length", "()I", false),
    ("java/lang/Throwable", "<init>", "()V", false),
    (
        "java/lang/Throwable",
        "<init>",
        "(Ljava/lang/String;)V",
        false,
    ),
    ("java/lang/Exception", "<init>", "()V", false),
    (
        "java/lang/Exception",
        "<init>",
        "(Ljava/lang/String;)V",
        false,
    ),
    ("java/lang/RuntimeException", "<init>", "()V", false),
    (
        "java/lang/RuntimeException",
        "<init>",
        "(Ljava/lang/String;)V",
        false,
    ),
    ("java/lang/InterruptedException", "<init>", "()V", false),
    (
        "java/lang/InterruptedException",
        "<init>",
        "(Ljava/lang/String;)V",
        false,
    ),
    ("java/lang/NullPointerException", "<init>", "()V", false),
    (
        "java/lang/NullPointerException",
        "<init>",
        "(Ljava/lang/String;)V",
        false,
    ),
    ("java/lang/ArithmeticException", "<init>", "()V", false),
    (
        "java/lang/ArithmeticException",
        "<init>",
        "(Ljava/lang/String;)V",
        false,
    ),
    ("java/lang/ClassCastException", "<init>", "()V", false),
    (
        "java/lang/ClassCastException",
        "<init>",
        "(Ljava/lang/String;)V",
        false,
    ),
    ("java/lang/ArrayStoreException", "<init>", "()V", false),
    (
        "java/lang/ArrayStoreException",
        "<init>",
        "(Ljava/lang/String;)V",
        false,
    ),
    (
        "java/lang/NegativeArraySizeException",
        "<init>",
        "()V",
        false,
    ),
    (
        "java/lang/NegativeArraySizeException",
        "<init>",
        "(Ljava/lang/String;)V",
        false,
    ),
    (
        "java/lang/IllegalMonitorStateException",
        "<init>",
        "()V",
        false,
    ),
    (
        "java/lang/IllegalMonitorStateException",
        "<init>",
        "(Ljava/lang/String;)V",
        false,
    ),
    (
        "java/lang/IndexOutOfBoundsException",
        "<init>",
        "()V",
        false,
    ),
    (
        "java/lang/IndexOutOfBoundsException",
        "<init>",
        "(Ljava/lang/String;)V",
        false,
    ),
    ("java/lang/IllegalArgumentException", "<init>", "()V", false),
    (
        "java/lang/IllegalArgumentException",
        "<init>",
        "(Ljava/lang/String;)V",
        false,
    ),
    (
        "java/lang/ArrayIndexOutOfBoundsException",
        "<init>",
        "()V",
        false,
    ),
    (
        "java/lang/ArrayIndexOutOfBoundsException",
        "<init>",
        "(Ljava/lang/String;)V",
        false,
    ),
    (
        "java/lang/IllegalThreadStateException",
        "<init>",
        "()V",
        false,
    ),
    (
        "java/lang/IllegalThreadStateException",
        "<init>",
        "(Ljava/lang/String;)V",
        false,
    ),
];

/// The built-in classes, in the order of their table.
pub fn built_in_classes(alloc: Global) -> Result<List<ListedClass>, NoMemory>
    ensures { IfOk result (λ classes. classes ≡ built_in_classes) }
{
    classes_of_rows(alloc, CLASSES.as_slice())
}

fn classes_of_rows(alloc: Global, rows: &[(&str, &str)]) -> Result<List<ListedClass>, NoMemory>
    ensures { IfOk result (λ classes. classes ≡ map (λ r. class_of_row (r.0.now, r.1.now)) rows.now) }
{
    let mut classes = List::new(alloc);
    for (name, parent) in rows {
        classes.push(class_of_row(alloc, name.as_bytes(), parent.as_bytes())?)?;
    }
    Ok(classes)
}

fn class_of_row(alloc: Global, name: &[u8], parent: &[u8]) -> Result<ListedClass, NoMemory>
    ensures { IfOk result (λ class. class ≡ class_of_row (name.now, parent.now)) }
{
    let mut interfaces = List::new(alloc);
    if is_text(name, "java/lang/Thread") {
        interfaces.push(Bytes::from_slice(alloc, b"java/lang/Runnable")?)?;
    }
    Ok(ListedClass {
        name: Bytes::from_slice(alloc, name)?,
        parent: Bytes::from_slice(alloc, parent)?,
        interfaces,
        is_interface: is_text(name, "java/lang/Runnable"),
    })
}

/// Whether the class has the method built in.
pub fn is_built_in(class: &[u8], name: &[u8], desc: &[u8]) -> bool
    ensures { result ≡ is_built_in class.now name.now desc.now }
{
    is_among(METHODS.as_slice(), class, name, desc)
}

fn is_among(rows: &[(&str, &str, &str, bool)], class: &[u8], name: &[u8], desc: &[u8]) -> bool
    ensures { result ≡ list_any (λ r. is_row class.now name.now desc.now (r.0.now, r.1.now, r.2.now, r.3)) rows.now }
{
    for (of, named, described, _) in rows {
        let same_class = of.as_bytes() == class;
        if same_class && named.as_bytes() == name && described.as_bytes() == desc {
            return true;
        }
    }
    false
}
