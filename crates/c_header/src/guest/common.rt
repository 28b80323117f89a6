//! The parts that all headers for guests have.

pub static COMMON: &str = "\
#include <stddef.h>
#include <stdint.h>
#ifndef __cplusplus
#include <stdalign.h>
#ifndef static_assert
#define static_assert _Static_assert
#endif
#endif

#ifdef __cplusplus
extern \"C\" {
#endif

#ifndef WIT_GUEST
#define WIT_GUEST
#ifndef __wasm32__
#error \"a guest is compiled for wasm32\"
#endif

/* A bool: 0 is false, all else is true. */
typedef uint8_t wit_bool;

/* A Unicode scalar value. */
typedef uint32_t wit_char;

/* length bytes of UTF-8 at an address. */
typedef struct {
    uint32_t address;
    uint32_t length;
} wit_string;

/* The tags of an option and of a result. */
enum { WIT_NONE, WIT_SOME };
enum { WIT_OK, WIT_ERROR };

/* A block of size bytes. Like the arguments of an export and the results of imports, it is there until the call of the
 * export ends. Traps if there is no room. */
void *wit_allocate(size_t align, size_t size);

/* A call of an export begins, and ends. */
void wit_enter(void);
void wit_leave(void);

/* The bytes of a string. */
static inline char *wit_string_bytes(wit_string string) {
    return (char *)(uintptr_t)string.address;
}

/* A string of bytes that are not copied. */
static inline wit_string wit_string_of(const char *bytes, size_t length) {
    wit_string string = {(uint32_t)(uintptr_t)bytes, (uint32_t)length};
    return string;
}

/* A string in a new block, whose bytes are to be written. */
static inline wit_string wit_string_new(size_t length) {
    return wit_string_of((const char *)wit_allocate(1, length), length);
}

/* A block for so many elements of a list. */
static inline void *wit_allocate_all(size_t align, size_t size, size_t count) {
    if (count > UINT32_MAX / size)
        __builtin_trap();
    return wit_allocate(align, size * count);
}

/* A literal as a string. */
#define WIT_STRING(literal) wit_string_of(\"\" literal, sizeof literal - 1)

/* A core value: its bits. */
typedef uint64_t wit_flat;

static inline void wit_put(wit_flat *flats, size_t place, uint64_t bits) {
    flats[place] = bits;
}

static inline uint32_t wit_i32(const wit_flat *flat) {
    return (uint32_t)*flat;
}

static inline uint64_t wit_i64(const wit_flat *flat) {
    return *flat;
}
#endif /* WIT_GUEST */
";

/// What a guest has once, without its exports.
pub static IMPLEMENTATION: &str = "
/* ---- what the linker and the host need: define WIT_IMPLEMENTATION in one file before the header is included */

#ifdef WIT_IMPLEMENTATION

/* Blocks one after another, in memory that is added for them. Define WIT_OWN_BLOCKS to define wit_allocate, wit_enter,
 * wit_leave and cabi_realloc in another way. */
#ifndef WIT_OWN_BLOCKS
static uintptr_t wit_first, wit_next, wit_end;
static unsigned wit_calls;

/* Adds memory for so many bytes. If it does not lie right behind what was added before, that is not used any more. */
static void wit_grow(uint64_t size) {
    size_t before = __builtin_wasm_memory_size(0);
    if (before * 65536 != wit_end) {
        size += wit_end - wit_first;
        wit_first = wit_next = before * 65536;
    }
    size_t pages = (size_t)(size / 65536) + 1;
    if (__builtin_wasm_memory_grow(0, pages) != before)
        __builtin_trap();
    wit_end = (before + pages) * 65536;
}

void *wit_allocate(size_t align, size_t size) {
    uint64_t at = ((uint64_t)wit_next + align - 1) / align * align;
    if (at + size > wit_end) {
        wit_grow((uint64_t)align + size);
        at = ((uint64_t)wit_next + align - 1) / align * align;
    }
    wit_next = (uintptr_t)(at + size);
    return (void *)(uintptr_t)at;
}

void wit_enter(void) {
    wit_calls++;
}

void wit_leave(void) {
    if (--wit_calls == 0)
        wit_next = wit_first;
}

/* What the host asks for blocks. */
__attribute__((export_name(\"cabi_realloc\")))
void *cabi_realloc(void *old, size_t old_size, size_t align, size_t size) {
    char *block = (char *)wit_allocate(align, size);
    for (size_t place = 0; place < old_size && place < size; place++)
        block[place] = ((const char *)old)[place];
    return block;
}
#endif /* WIT_OWN_BLOCKS */
";

/// What comes after its exports.
pub static END: &str = "\
#endif /* WIT_IMPLEMENTATION */

#ifdef __cplusplus
}
#endif
";
