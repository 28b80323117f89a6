//! The part that all headers have.

pub static COMMON: &str = "\
#ifndef WIT_COMMON
#define WIT_COMMON
#include \"witcall.h\"
#include <assert.h>
#include <stddef.h>
#include <stdint.h>
#include <string.h>
#ifndef __cplusplus
#include <stdalign.h>
#endif

#if defined(__BYTE_ORDER__) && __BYTE_ORDER__ != __ORDER_LITTLE_ENDIAN__
#error \"linear memories are little-endian, and these types are for hosts that are too\"
#endif

/* A bool: 0 is false, all else is true. */
typedef uint8_t wit_bool;

/* A Unicode scalar value. */
typedef uint32_t wit_char;

/* length bytes of UTF-8 at an address of the memory. */
typedef struct {
    uint32_t address;
    uint32_t length;
} wit_string;

/* The tags of an option and of a result. */
enum { WIT_NONE, WIT_SOME };
enum { WIT_OK, WIT_ERROR };

static inline wit_string wit_string_load(const uint8_t *memory, uint32_t at) {
    wit_string value;
    memcpy(&value, memory + at, sizeof value);
    return value;
}

static inline void wit_string_store(uint8_t *memory, uint32_t at, wit_string value) {
    memcpy(memory + at, &value, sizeof value);
}

/* Makes each core value 0, of its kind: i for an i32, I for an i64. */
static inline void wit_begin(witcall_value *flats, const char *kinds) {
    for (size_t place = 0; kinds[place]; place++) {
        flats[place].kind = kinds[place] == 'I';
        flats[place].bits = 0;
    }
}

static inline void wit_put(witcall_value *flats, size_t place, uint64_t bits) {
    flats[place].bits = bits;
}

static inline uint32_t wit_i32(const witcall_value *flat) {
    return (uint32_t)flat->bits;
}

static inline uint64_t wit_i64(const witcall_value *flat) {
    return flat->bits;
}
#endif
";
